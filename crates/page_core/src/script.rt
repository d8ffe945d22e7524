//! The script of a page.

/// The script, and the end of the page. It puts each place below the place that it lies in, draws
/// the open loans on a time line, and lists the locations of a thing when someone clicks on it,
/// with the containers that the thing was in, and the message. A search lists what it finds below
/// the box and leaves the tree as it is, because to hide and show each row takes seconds on a large
/// page.
pub(crate) const PAGE_END: &str = "<script>\n\
var box = document.getElementById('find');\n\
var found = document.getElementById('found');\n\
var tree = document.querySelector('.tree');\n\
var most = 100;\n\
var dayLength = 86400000;\n\
var items, past;\n\
function nameOf(row) {\n\
  if (row.cells) return row.cells[0].textContent;\n\
  return (row.querySelector('summary') || row).firstChild.data.trim();\n\
}\n\
function whereIs(row) {\n\
  var names = [];\n\
  for (var at = row.parentNode.closest('li'); at; at = at.parentNode.closest('li')) {\n\
    names.unshift(nameOf(at));\n\
  }\n\
  return names.join(' / ');\n\
}\n\
function make(parent, tag, text) {\n\
  var node = parent.appendChild(document.createElement(tag));\n\
  node.textContent = text;\n\
  return node;\n\
}\n\
function nest() {\n\
  var places = new Map();\n\
  Array.from(tree.children).forEach(function (row) { places.set(nameOf(row), row); });\n\
  var inside = new Set();\n\
  places.forEach(function (row, name) {\n\
    for (var end = name.lastIndexOf('-'); end > 0; end = name.lastIndexOf('-', end - 1)) {\n\
      var above = places.get(name.slice(0, end));\n\
      if (above) {\n\
        above.querySelector('ul').append(row);\n\
        inside.add(row);\n\
        return;\n\
      }\n\
    }\n\
  });\n\
  function count(row) {\n\
    var number = row.querySelector('small');\n\
    var own = Number(number.textContent);\n\
    var all = Array.from(row.querySelector('ul').children).filter(function (part) {\n\
      return inside.has(part);\n\
    }).reduce(function (sum, part) { return sum + count(part); }, own);\n\
    if (all > own) number.textContent = own + ', ' + all + ' with the places in it';\n\
    return all;\n\
  }\n\
  Array.from(tree.children).forEach(count);\n\
}\n\
function pastOf(name) {\n\
  if (!past) {\n\
    past = new Map();\n\
    JSON.parse(document.getElementById('history').textContent).forEach(function (at) {\n\
      if (!at) return;\n\
      if (!past.has(at[0])) past.set(at[0], []);\n\
      past.get(at[0]).push(at.slice(1));\n\
    });\n\
  }\n\
  return past.get(name) || [];\n\
}\n\
function hidePast(row) {\n\
  var shown = row.querySelector(':scope > .past, :scope > details > .past');\n\
  if (shown) shown.remove();\n\
  return shown;\n\
}\n\
function showPast(row) {\n\
  var list = pastOf(nameOf(row));\n\
  if (row.cells || list.length === 0) return;\n\
  hidePast(row);\n\
  var frame = document.createElement('div');\n\
  frame.className = 'past';\n\
  var table = make(frame, 'table', '');\n\
  var heading = make(table.createTHead(), 'tr', '');\n\
  ['Entry', 'Location date', 'Location', 'Containers', 'Station', 'Message']\n\
    .forEach(function (name) { make(heading, 'th', name); });\n\
  var body = table.createTBody();\n\
  list.forEach(function (at) {\n\
    var line = body.insertRow();\n\
    at.forEach(function (value) { make(line, 'td', value); });\n\
  });\n\
  var summary = row.querySelector('summary');\n\
  if (summary) summary.after(frame); else row.append(frame);\n\
}\n\
function read() {\n\
  items = [];\n\
  document.querySelectorAll('.tree li, .loans tbody tr').forEach(function (row) {\n\
    items.push({ row: row, name: nameOf(row).toLowerCase() });\n\
  });\n\
}\n\
function show(row) {\n\
  for (var above = row.closest('details'); above; above = above.parentNode.closest('details')) {\n\
    above.open = true;\n\
  }\n\
  showPast(row);\n\
  var node = row.querySelector('summary') || row;\n\
  node.tabIndex = -1;\n\
  node.scrollIntoView({ block: 'center' });\n\
  node.focus();\n\
}\n\
function add(text, row) {\n\
  var node = make(found, 'li', '');\n\
  if (!row) { node.textContent = text; return; }\n\
  make(node, 'button', text).addEventListener('click', function () { show(row); });\n\
  make(node, 'small', whereIs(row));\n\
}\n\
function find() {\n\
  if (!items) read();\n\
  var text = box.value.trim().toLowerCase();\n\
  found.replaceChildren();\n\
  if (text === '') return;\n\
  var hits = items.filter(function (item) { return item.name.includes(text); });\n\
  var exact = hits.filter(function (item) { return item.name === text; });\n\
  exact.concat(hits.filter(function (item) { return item.name !== text; }))\n\
    .slice(0, most).forEach(function (item) { add(nameOf(item.row), item.row); });\n\
  if (hits.length === 0) add('Nothing found');\n\
  if (hits.length > most) add('and ' + (hits.length - most) + ' more');\n\
}\n\
function shape(parent, tag, values, text) {\n\
  var node = document.createElementNS('http://www.w3.org/2000/svg', tag);\n\
  Object.keys(values).forEach(function (name) { node.setAttribute(name, values[name]); });\n\
  if (text) node.textContent = text;\n\
  return parent ? parent.appendChild(node) : node;\n\
}\n\
function draw() {\n\
  var loans = Array.from(document.querySelectorAll('.loans tbody tr'), function (row) {\n\
    var texts = Array.from(row.cells, function (cell) { return cell.textContent; });\n\
    return { name: texts[0], state: texts[1], words: texts.slice(0, 5).join(' '),\n\
      first: Date.parse(texts[3]) / dayLength, after: Date.parse(texts[4]) / dayLength + 1,\n\
      late: texts[7] };\n\
  }).filter(function (loan) { return loan.state !== 'Closed'; });\n\
  var drawn = loans.slice(-most);\n\
  if (drawn.length === 0) return;\n\
  var from = Math.min.apply(null, drawn.map(function (loan) { return loan.first; }));\n\
  var to = Math.max.apply(null, drawn.map(function (loan) { return loan.after; }));\n\
  var low = 20 + 18 * drawn.length;\n\
  function at(day) { return 150 + 840 * (day - from) / (to - from); }\n\
  var svg = shape(null, 'svg', { id: 'times', viewBox: '0 0 1000 ' + low, role: 'img',\n\
    'aria-label': 'Time line of the open loans' });\n\
  function tick(day, text) {\n\
    shape(svg, 'line', { x1: at(day), x2: at(day), y1: 0, y2: low });\n\
    shape(svg, 'text', { x: at(day) + 3, y: 11 }, text);\n\
  }\n\
  tick(from, new Date(from * dayLength).toISOString().slice(0, 10));\n\
  var step = Math.max(1, Math.ceil((to - from) / 240));\n\
  var month = new Date(from * dayLength);\n\
  month.setUTCDate(1);\n\
  for (; month / dayLength < to; month.setUTCMonth(month.getUTCMonth() + step)) {\n\
    var day = month / dayLength;\n\
    if (at(day) > at(from) + 80) tick(day, month.toISOString().slice(0, 7));\n\
  }\n\
  drawn.forEach(function (loan, row) {\n\
    var y = 20 + 18 * row;\n\
    shape(svg, 'text', { x: 0, y: y + 11 }, loan.name);\n\
    var bar = shape(svg, 'rect', { x: at(loan.first), y: y + 2, height: 12,\n\
      width: at(loan.after) - at(loan.first), class: loan.late ? 'late' : '' });\n\
    shape(bar, 'title', {}, loan.words + (loan.late ? ' overdue' : ''));\n\
  });\n\
  var table = document.querySelector('.loans').parentNode;\n\
  var frame = document.createElement('div');\n\
  frame.className = 'wide';\n\
  frame.append(svg);\n\
  table.before(frame);\n\
  if (drawn.length < loans.length) {\n\
    make(frame, 'p', 'The last ' + most + ' of ' + loans.length + ' open loans');\n\
  }\n\
}\n\
nest();\n\
draw();\n\
box.hidden = false;\n\
box.addEventListener('focus', function () { if (!items) read(); });\n\
box.addEventListener('input', find);\n\
document.querySelectorAll('.tree').forEach(function (list) {\n\
  list.addEventListener('click', function (event) {\n\
    var row = event.target.closest('li');\n\
    if (row && !event.target.closest('.past') && !hidePast(row)) showPast(row);\n\
  });\n\
});\n\
addEventListener('beforeprint', function () {\n\
  document.querySelectorAll('details').forEach(function (node) { node.open = true; });\n\
});\n\
</script>\n\
</body>\n\
</html>\n";
