//! Numbers in groups of three digits.
ghost use Rattle.std.specs.Prelude.{◌<◌};
ghost use Rattle.audit_sheet.specs.Sheets.{AddsDigits, AddsNumber, AddsMills};

use crate::sheet::Sheet;

/// Puts the number in groups of three digits, such as `1,234`.
#[tactic(auto, using(crate::proofs::Reading::group_one, crate::proofs::Reading::group_more))]
pub fn put_grouped(sheet: &mut Sheet, number: u128)
    ensures { AddsNumber number sheet.old.bytes.items sheet.new.bytes.items sheet.old.is_whole sheet.new.is_whole }
{
    if number < 1000 {
        return sheet.put_number(number as u64);
    }
    put_grouped(sheet, number / 1000);
    sheet.put_own(",");
    put_three(sheet, (number % 1000) as u64);
}

// Puts a number below 1,000 as three digits.
#[tactic(auto, using(crate::proofs::Reading::three_digits))]
fn put_three(sheet: &mut Sheet, number: u64)
    requires { number < 1000 }
    ensures { AddsDigits number 1000 sheet.old.bytes.items sheet.new.bytes.items sheet.old.is_whole sheet.new.is_whole }
{
    sheet.put_number(number / 100);
    put_two(sheet, number % 100);
}

// Puts a number below 100 as two digits.
#[tactic(auto, using(crate::proofs::Reading::two_digits))]
fn put_two(sheet: &mut Sheet, number: u64)
    requires { number < 100 }
    ensures { AddsDigits number 100 sheet.old.bytes.items sheet.new.bytes.items sheet.old.is_whole sheet.new.is_whole }
{
    sheet.put_number(number / 10);
    sheet.put_number(number % 10);
}

/// Puts dollars with two decimals, or with three if the amount is no whole cent or the page has such amounts.
#[tactic(auto, using(crate::proofs::Reading::dollars_three, crate::proofs::Reading::dollars_two))]
pub(crate) fn put_dollars(sheet: &mut Sheet, mills: u128, has_mills: bool)
    ensures { AddsMills mills sheet.old.bytes.items sheet.new.bytes.items sheet.old.is_whole sheet.new.is_whole }
{
    sheet.put_own("$");
    put_grouped(sheet, mills / 1000);
    sheet.put_own(".");
    let rest = (mills % 1000) as u64;
    if has_mills || rest % 10 != 0 {
        return put_three(sheet, rest);
    }
    put_two(sheet, rest / 10);
}
