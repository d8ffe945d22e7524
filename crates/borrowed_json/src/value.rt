//! A JSON value that borrows its text.
ghost use Rattle.std.specs.Prelude.{◌≡◌, option_map};
ghost use Rattle.serde_json.specs.Find.{get_member};
ghost use Rattle.borrowed_json.specs.View.{view, members_view};

use crate::Fields;
use serde_json::Number;

/// A JSON value that borrows its strings and lists. An object keeps its members in the order of the
/// text. If a key occurs twice, the last value counts.
#[derive(Clone, Copy)]
pub enum Value<'a> {
    Null,
    Bool(bool),
    Number(Number),
    String(&'a str),
    Array(&'a [Value<'a>]),
    Object(&'a [(&'a str, Value<'a>)]),
}

impl<'a> Fields for Value<'a> {
    ghost seen = { view };

    fn at(&self, name: &str) -> Option<&Value<'a>> {
        if let Value::Object(members) = self {
            find(members, name)
        } else {
            None
        }
    }

    fn has_members(&self) -> bool {
        matches!(self, Value::Object(_))
    }

    fn text(&self) -> Option<&str> {
        if let Value::String(text) = self {
            Some(*text)
        } else {
            None
        }
    }

    fn whole_number(&self) -> Option<u64> {
        if let Value::Number(number) = self {
            number.as_u64()
        } else {
            None
        }
    }

    fn items(&self) -> Option<&[Value<'a>]> {
        if let Value::Array(items) = self {
            Some(items)
        } else {
            None
        }
    }
}

/// The value of the last member with this name.
fn find<'a>(members: &'a [(&'a str, Value<'a>)], name: &str) -> Option<&'a Value<'a>>
    ensures { option_map (λ v. view v.now) result
        ≡ get_member name.now (members_view members.now) }
{
    let mut left = members.len();
    while left > 0 {
        left -= 1;
        let member = &members[left];
        if member.0 == name {
            return Some(&member.1);
        }
    }
    None
}
