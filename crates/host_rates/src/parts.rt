//! The parts of a TOML document that a rate file is made of.
ghost use Rattle.std.specs.Prelude.{◌≡◌, option_map};
ghost use Rattle.toml.specs.Data.{get_member};
ghost use Rattle.toml.specs.View.{view, table_view};
ghost use Rattle.host_rates.specs.Reading as form;

use toml::{Table, Value};

// A whole number from 1 to the greatest.
pub(crate) fn whole(value: &Value, greatest: u32) -> Option<u32>
    ensures exact { result ≡ form.whole greatest (view value.now) }
{
    let number = u32::try_from(value.as_integer()?).ok()?;
    if number == 0 || number > greatest {
        return None;
    }
    Some(number)
}

fn member<'a>(table: &'a Table, key: &str) -> Option<&'a Value>
    ensures { option_map (λ v. view v.now) result ≡ get_member key.now (table_view table.now) }
{
    table.get(key)
}

// The two values of a table that has exactly these keys.
pub(crate) fn two_in<'a>(
    table: &'a Table,
    first: &str,
    second: &str,
) -> Option<(&'a Value, &'a Value)>
    ensures exact { option_map (λ p. (view p.0.now, view p.1.now)) result ≡ form.two_in first.now second.now (table_view table.now) }
{
    if table.len() != 2 {
        return None;
    }
    let one = member(table, first)?;
    let other = member(table, second)?;
    Some((one, other))
}

pub(crate) fn two<'a>(value: &'a Value, first: &str, second: &str) -> Option<(&'a Value, &'a Value)>
    ensures exact { option_map (λ p. (view p.0.now, view p.1.now)) result ≡ form.two first.now second.now (view value.now) }
{
    two_in(value.as_table()?, first, second)
}
