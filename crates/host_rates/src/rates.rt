//! Rates as they are kept, and the price of a piece. Weights are in grams, prices in mills.
ghost use Rattle.std.specs.Prelude.{◌≡◌, ◌-◌, ◌≤◌, All, IfOk, length, option_map, slice_index};
ghost use Rattle.host_rates.specs.Tables.{IsPrice, IsRates, class_numbered, max_grams, price_in, step_for, step_price};

use bench_base::refusals::RateRefusal;
use std::marker::Model;

/// What pieces up to a weight cost.
#[derive(Drop)]
pub struct Step {
    grams: u32,
    mills: Vec<u32>,
}

impl Model for Step {
    ghost use Rattle.host_rates.specs.Tables.{StepTable};

    ghost Value = { StepTable };

    ghost view = { λ s. record { grams = s.grams; mills = s.mills.items } };
}

/// A class of mail: its steps of weight.
#[derive(Drop)]
pub struct Class {
    number: u16,
    steps: Vec<Step>,
}

impl Model for Class {
    ghost use Rattle.host_rates.specs.Tables.{ClassTable};

    ghost Value = { ClassTable };

    ghost view = { λ c. record { number = c.number; steps = c.steps.items } };
}

/// The rates of a text.
#[derive(Drop)]
pub struct Rates {
    zones: u32,
    classes: Vec<Class>,
}

impl Model for Rates {
    ghost use Rattle.host_rates.specs.Tables.{RateTable, IsRates};

    ghost Value = { RateTable };

    ghost view = { λ r. record { zones = r.zones; classes = r.classes.items } };

    ghost invariant = { λ r. IsRates (record { zones = r.zones; classes = r.classes.items }) };
}

impl Step {
    pub(crate) fn new(grams: u32, mills: Vec<u32>) -> Step
        ensures grams { result.grams ≡ grams }
        ensures mills { result.mills ≡ mills.items }
    {
        Step { grams, mills }
    }

    pub(crate) fn grams(&self) -> u32
        ensures { result ≡ self.now.grams }
    {
        self.grams
    }

    // The price in this zone.
    fn price(&self, zone: u32) -> u32
        requires zone { (1 ≤ zone) × (zone ≤ length self.now.mills) }
        ensures { result ≡ slice_index self.now.mills (zone - 1) }
    {
        self.mills[zone as usize - 1]
    }
}

impl Class {
    pub(crate) fn new(number: u16, steps: Vec<Step>) -> Class
        ensures number { result.number ≡ number }
        ensures steps { result.steps ≡ steps.items }
    {
        Class { number, steps }
    }

    pub(crate) fn number(&self) -> u16
        ensures { result ≡ self.now.number }
    {
        self.number
    }

    // The first step whose grams are at least the weight.
    fn step_for(&self, grams: u32) -> Option<&Step>
        ensures exact { option_map (λ s. s.now) result ≡ step_for grams self.now.steps }
    {
        self.steps.iter().find(|step| grams <= step.grams())
    }

    // The grams of the last step.
    fn max_grams(&self) -> u32
        requires some { 1 ≤ length self.now.steps }
        ensures exact { result ≡ max_grams self.now.steps }
    {
        self.steps[self.steps.len() - 1].grams()
    }

    // The price of a piece of this weight in a zone that there is.
    fn price(&self, grams: u32, zone: u32) -> Result<u32, RateRefusal>
        requires zone { 1 ≤ zone }
        requires some { 1 ≤ length self.now.steps }
        requires priced { All (λ s. zone ≤ length s.mills) self.now.steps }
        ensures exact { result ≡ step_price zone self.now.steps (step_for grams self.now.steps) }
    {
        match self.step_for(grams) {
            Some(step) => Ok(step.price(zone)),
            None => Err(RateRefusal::TooHeavy(self.max_grams())),
        }
    }
}

impl Rates {
    pub(crate) fn new(zones: u32, classes: Vec<Class>) -> Rates
        requires { IsRates (record { zones = zones; classes = classes.items }) }
        ensures zones { result.zones ≡ zones }
        ensures classes { result.classes ≡ classes.items }
    {
        Rates { zones, classes }
    }

    /// How many classes there are, from 1 to 64.
    pub fn classes(&self) -> u32
        ensures { result ≡ length self.now.classes }
    {
        self.classes.len() as u32
    }

    /// How many zones there are, from 1 to 9.
    pub fn zones(&self) -> u32
        ensures { result ≡ self.now.zones }
    {
        self.zones
    }

    fn class_numbered(&self, number: u16) -> Option<&Class>
        ensures exact { option_map (λ c. c.now) result ≡ class_numbered number self.now }
    {
        self.classes.iter().find(|class| class.number() == number)
    }

    /// The price in mills, from 1 to 100,000, of a piece of this class and this weight in grams in this zone: that of the
    /// class's first step whose grams are at least the weight. `NoClass` if and only if no class has the number. Otherwise
    /// `NoZone` with the number of zones if and only if the zone is 0 or above it. Otherwise `TooHeavy` with the grams of the
    /// class's last step if and only if the weight is above them.
    pub fn price(&self, class: u16, grams: u32, zone: u32) -> Result<u32, RateRefusal>
        ensures exact { result ≡ price_in class grams zone self.now }
        ensures range { IfOk result IsPrice }
    {
        let Some(class) = self.class_numbered(class) else {
            return Err(RateRefusal::NoClass);
        };
        if zone == 0 || zone > self.zones {
            return Err(RateRefusal::NoZone(self.zones));
        }
        class.price(grams, zone)
    }
}
