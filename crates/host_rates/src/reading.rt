//! Rates are read from a TOML text.
ghost use Rattle.std.specs.Prelude.{◌≡◌, ◌<◌, ◌&&◌, Err, nat_le, length, IfOk};
ghost use Rattle.toml.specs.View.{view, table_view};
ghost use Rattle.host_rates.specs.Answers.{AreRatesOf, Reads, UnlessMemory, answer};
ghost use Rattle.host_rates.specs.Reading as form;
ghost use Rattle.host_rates.specs.Tables.{IsRates};
ghost use Rattle.host_rates.specs.declared.reading.RatesFail.TheVariants.{Length};

use crate::parts::{two, two_in, whole};
use crate::rates::{Class, Rates, Step};
use std::alloc::{AllocError, AllocFailed, Global};
use toml::{Table, Value};

/// The greatest length of a text of rates, in bytes.
const MAX_BYTES: usize = 65_536;

/// The greatest number of classes, and of steps of a class.
const MAX_ITEMS: usize = 64;

/// The greatest price, in mills.
const MAX_MILLS: u32 = 100_000;

/// The greatest weight, in grams.
const MAX_GRAMS: u32 = 100_000;

/// The greatest number of zones.
const MAX_ZONES: u32 = 9;

/// The greatest number of a class.
const MAX_NUMBER: u32 = 65_535;

/// Why a text gives no rates.
#[derive(Clone, Copy, Debug, PartialEq, Eq)]
pub enum RatesFail {
    /// There was no memory to read it.
    Memory(AllocError),
    /// The text has more than 65,536 bytes: so many.
    Length(usize),
    /// It is no TOML document in UTF-8.
    Toml,
    /// The document is no rate file.
    Form,
}

impl<T: Drop> From<AllocFailed<T>> for RatesFail {
    ghost use Rattle.std.specs.Prelude.{alloc_error};
    ghost use Rattle.host_rates.specs.declared.reading.RatesFail.TheVariants.{Memory};

    ghost from_gives = { λ _ fail. fail ≡ Memory alloc_error };

    fn from(_failed: AllocFailed<T>) -> RatesFail {
        RatesFail::Memory(AllocError)
    }
}

// What an array of a rate file lists.
trait Item: Drop + Sized {
    ghost use Rattle.std.specs.Prelude.{ℕ, Option};
    ghost use Rattle.toml.specs.Data.{Data};

    // The item that a value is, where there are so many zones.
    ghost item_of: { ℕ → Data → Option Self };

    fn read(alloc: Global, value: &Value, zones: u32) -> Result<Self, RatesFail>
        ensures exact { Reads (λ x. x) result (item_of zones (view value.now)) };
}

// The items of an array.
fn listed<T: Item>(alloc: Global, value: &Value, zones: u32) -> Result<Vec<T>, RatesFail>
    ensures exact { Reads (λ v. v.items) result (form.listed (T.item_of zones) (view value.now)) }
{
    let values = value.as_array().ok_or(RatesFail::Form)?;
    let mut items = Vec::new(alloc);
    for value in values {
        let item = T::read(alloc, value, zones)?;
        items.push(item)?;
    }
    Ok(items)
}

// A price, in mills.
impl Item for u32 {
    ghost item_of = { λ zones d. form.whole 100000 d };

    fn read(_alloc: Global, value: &Value, _zones: u32) -> Result<u32, RatesFail> {
        whole(value, MAX_MILLS).ok_or(RatesFail::Form)
    }
}

// One price for each zone.
fn mills(alloc: Global, value: &Value, zones: u32) -> Result<Vec<u32>, RatesFail>
    ensures exact { Reads (λ v. v.items) result (form.mills_of zones (view value.now)) }
{
    let mills = listed::<u32>(alloc, value, zones)?;
    if mills.len() == zones as usize {
        Ok(mills)
    } else {
        Err(RatesFail::Form)
    }
}

impl Item for Step {
    ghost item_of = { form.step_of };

    fn read(alloc: Global, value: &Value, zones: u32) -> Result<Step, RatesFail> {
        let (grams, prices) = two(value, "grams", "mills").ok_or(RatesFail::Form)?;
        let grams = whole(grams, MAX_GRAMS).ok_or(RatesFail::Form)?;
        let mills = mills(alloc, prices, zones)?;
        Ok(Step::new(grams, mills))
    }
}

// Whether there is an item, and no more than there may be.
fn is_few(items: usize) -> bool
    ensures { result ≡ (nat_le 1 items && nat_le items 64) }
{
    items >= 1 && items <= MAX_ITEMS
}

// Whether each step is for more grams than the one before it.
fn rises(steps: &[Step]) -> bool
    ensures { result ≡ form.rises_above 0 steps.now }
{
    let mut last = 0;
    for step in steps {
        if step.grams() <= last {
            return false;
        }
        last = step.grams();
    }
    true
}

fn steps(alloc: Global, value: &Value, zones: u32) -> Result<Vec<Step>, RatesFail>
    ensures exact { Reads (λ v. v.items) result (form.steps_of zones (view value.now)) }
{
    let steps = listed::<Step>(alloc, value, zones)?;
    if is_few(steps.len()) && rises(&steps) {
        Ok(steps)
    } else {
        Err(RatesFail::Form)
    }
}

impl Item for Class {
    ghost item_of = { form.class_of };

    fn read(alloc: Global, value: &Value, zones: u32) -> Result<Class, RatesFail> {
        let (number, steps_value) = two(value, "number", "steps").ok_or(RatesFail::Form)?;
        let number = whole(number, MAX_NUMBER).ok_or(RatesFail::Form)?;
        let steps = steps(alloc, steps_value, zones)?;
        Ok(Class::new(number as u16, steps))
    }
}

// Whether no two classes have one number.
fn differ(classes: &[Class]) -> bool
    ensures { result ≡ form.differ classes.now }
{
    for (place, class) in classes.iter().enumerate() {
        if has_number(&classes[place + 1..], class.number()) {
            return false;
        }
    }
    true
}

fn has_number(classes: &[Class], number: u16) -> bool
    ensures { result ≡ form.has_number number classes.now }
{
    classes.iter().any(|class| class.number() == number)
}

fn classes(alloc: Global, value: &Value, zones: u32) -> Result<Vec<Class>, RatesFail>
    ensures exact { Reads (λ v. v.items) result (form.classes_of zones (view value.now)) }
{
    let classes = listed::<Class>(alloc, value, zones)?;
    if is_few(classes.len()) && differ(&classes) {
        Ok(classes)
    } else {
        Err(RatesFail::Form)
    }
}

// The rates in a document.
fn rates(alloc: Global, table: &Table) -> Result<Rates, RatesFail>
    ensures exact { Reads (λ r. r) result (form.rates_in (table_view table.now)) }
{
    let (zones, class) = two_in(table, "zones", "class").ok_or(RatesFail::Form)?;
    let zones = whole(zones, MAX_ZONES).ok_or(RatesFail::Form)?;
    let classes = classes(alloc, class, zones)?;
    Ok(Rates::new(zones, classes))
}

/// The rates of a text in TOML.
///
/// `Length` if and only if it has more than 65,536 bytes, with their number. Otherwise `Toml` if and only if it is no UTF-8 or
/// no document. Otherwise `Form` if and only if the document is no rate file. `Memory` may be returned in place of `Toml`,
/// `Form` and the rates, and means that memory ran out.
pub fn read_rates(alloc: Global, text: &[u8]) -> Result<Rates, RatesFail>
    ensures exact { UnlessMemory result (answer text.now) }
    ensures long { 65536 < length text.now → result ≡ Err (Length (length text.now)) }
    ensures of_text { IfOk result (AreRatesOf text.now) }
    ensures form { IfOk result IsRates }
{
    if text.len() > MAX_BYTES {
        return Err(RatesFail::Length(text.len()));
    }
    let table = match toml::table_from_slice(alloc, text) {
        Ok(table) => table,
        Err(fault) if fault.is_memory() => return Err(RatesFail::Memory(AllocError)),
        Err(_) => return Err(RatesFail::Toml),
    };
    rates(alloc, &table)
}
