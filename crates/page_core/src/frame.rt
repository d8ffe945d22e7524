//! The markup around the sections of a page.

/// Before the museum in numbers: the head of the page with its style.
pub(crate) const HEAD: &str = "<!doctype html>\n\
<html lang=\"en\">\n\
<head>\n\
<meta charset=\"utf-8\">\n\
<meta name=\"viewport\" content=\"width=device-width, initial-scale=1\">\n\
<title>Where everything is</title>\n\
<style>\n\
body { font: 1rem/1.5 system-ui, sans-serif; max-width: 60rem; margin: auto; padding: 1rem; }\n\
h1 { font-size: 1.5rem; }\n\
h2 { font-size: 1.2rem; margin: 2rem 0 0.5rem; }\n\
dl { display: flex; flex-wrap: wrap; gap: 0.25rem 2rem; margin: 0 0 1rem; }\n\
dt { color: #555; font-size: 0.85rem; }\n\
dd { margin: 0; font-size: 1.4rem; font-weight: 600; }\n\
.seal { font-size: 1rem; font-weight: 400; overflow-wrap: anywhere; }\n\
input { font: inherit; width: 100%; box-sizing: border-box; padding: 0.4rem 0.6rem; }\n\
ul { list-style: none; margin: 0; padding-left: 1.1rem; border-left: 1px solid #ddd; }\n\
ul.tree { padding: 0; border: 0; }\n\
ul.tree:empty::before { content: \"None\"; }\n\
#found { padding: 0; border: 0; }\n\
#found:not(:empty) { margin-bottom: 1rem; }\n\
#found button { font: inherit; padding: 0; border: 0; background: none; color: #05c; }\n\
#found small { margin-left: 1rem; }\n\
summary, #found button { cursor: pointer; }\n\
summary { padding: 0.15rem 0; font-weight: 600; }\n\
small { color: #555; font-weight: 400; }\n\
.wide { overflow-x: auto; content-visibility: auto; contain-intrinsic-size: auto 20rem; }\n\
table { border-collapse: collapse; }\n\
th, td { padding: 0.2rem 1rem 0.2rem 0; text-align: left; white-space: nowrap; }\n\
th { color: #555; font-size: 0.85rem; font-weight: 400; }\n\
td { border-top: 1px solid #ddd; }\n\
.loans td:last-child { font-weight: 600; }\n\
.past { margin: 0 0 0.5rem 1.1rem; overflow-x: auto; font-weight: 400; }\n\
.tree li { cursor: pointer; }\n\
#times { display: block; width: 100%; min-width: 40rem; margin: 0 0 1rem; font-size: 12px; }\n\
#times rect { fill: #6a8fc7; }\n\
#times .late { fill: #c33; }\n\
#times line { stroke: #ddd; }\n\
@media print {\n\
body { max-width: none; font-size: 9pt; }\n\
input, #found { display: none; }\n\
.wide, .past { overflow: visible; content-visibility: visible; }\n\
#times { min-width: 0; }\n\
th, td { white-space: normal; }\n\
tr { break-inside: avoid; }\n\
}\n\
</style>\n\
</head>\n\
<body>\n\
<h1>Where everything is</h1>\n\
<dl>\n";

/// After it.
pub(crate) const NUMBERS_END: &str = "</dl>\n";

/// Before the tree. The script shows the search box.
pub(crate) const TREE: &str = "<p><input id=\"find\" type=\"search\" \
placeholder=\"Find a place, an object, a container or a loan\" \
aria-label=\"Find a place, an object, a container or a loan\" hidden></p>\n\
<ul id=\"found\" aria-live=\"polite\"></ul>\n\
<ul class=\"tree\">";

/// Before the things that were never placed.
pub(crate) const UNPLACED: &str = "<h2>Not placed</h2>\n<ul class=\"tree\">";

/// After the rows of a tree.
pub(crate) const TREE_END: &str = "</ul>\n";

/// Before the locations of all things, which only the script reads.
pub(crate) const HISTORIES: &str = "<script type=\"application/json\" id=\"history\">[\n";

/// After them. The last row ends with a comma, so there is one more element.
pub(crate) const HISTORIES_END: &str = "0]</script>\n";

/// Before the loans.
pub(crate) const LOANS: &str = "<h2>Loans in and loans out</h2>\n\
<div class=\"wide\"><table class=\"loans\">\n\
<thead><tr><th scope=\"col\">Loan</th><th scope=\"col\">State</th>\
<th scope=\"col\">Partner</th><th scope=\"col\">First day</th><th scope=\"col\">Last day</th>\
<th scope=\"col\">Objects</th><th scope=\"col\">Not yet returned</th>\
<th scope=\"col\">Overdue</th></tr></thead>\n\
<tbody>\n";

/// Before the objects of all loans.
pub(crate) const LOAN_OBJECTS: &str = "<h2>Objects of each loan</h2>\n\
<div class=\"wide\"><table>\n\
<thead><tr><th scope=\"col\">Loan</th><th scope=\"col\">Object number</th>\
<th scope=\"col\">Stage</th></tr></thead>\n\
<tbody>\n";

/// Before the objects that are away from their normal locations.
pub(crate) const AWAY: &str = "<h2>Away from the normal location</h2>\n\
<div class=\"wide\"><table>\n\
<thead><tr><th scope=\"col\">Object number</th><th scope=\"col\">Current location</th>\
<th scope=\"col\">Normal location</th></tr></thead>\n\
<tbody>\n";

/// Before the stations.
pub(crate) const STATIONS: &str = "<h2>Stations</h2>\n\
<div class=\"wide\"><table>\n\
<thead><tr><th scope=\"col\">Station</th><th scope=\"col\">Next number</th></tr></thead>\n\
<tbody>\n";

/// Before the last entries.
pub(crate) const ENTRIES: &str = "<h2>Last entries</h2>\n\
<div class=\"wide\"><table>\n\
<thead><tr><th scope=\"col\">Entry</th><th scope=\"col\">Station</th>\
<th scope=\"col\">Number</th><th scope=\"col\">Verdict</th>\
<th scope=\"col\">Cause</th></tr></thead>\n\
<tbody>\n";

/// After the rows of a table.
pub(crate) const TABLE_END: &str = "</tbody></table></div>\n";
