//! Numbers in a range: devices, customers, days and versions.
ghost use Rattle.std.specs.Prelude.{◌≡◌, ℕ, pos, ◌≤◌, ◌≤ℤ◌, ◌↔◌, IsSome, IfSome};
ghost use Rattle.bench_base.specs.Rules.{is_version};

use std::marker::Model;

/// The number of a device, 1 to 8.
#[derive(Clone, Copy, Debug, PartialEq, Eq)]
pub struct DevNo(u8);

impl Model for DevNo {
    ghost Value = { ℕ };

    ghost view = { λ d. d.0 };

    ghost invariant = { λ d. (1 ≤ d.0) × (d.0 ≤ 8) };

    ghost inverse = { λ n. record { 0 = n } };
}

impl DevNo {
    /// None if and only if the number is not 1 to 8.
    pub fn new(n: u32) -> Option<DevNo>
        ensures valid { IsSome result ↔ ((1 ≤ n) × (n ≤ 8)) }
        ensures value { IfSome result (λ d. d ≡ n) }
    {
        if 1 <= n && n <= 8 {
            Some(DevNo(n as u8))
        } else {
            None
        }
    }

    pub fn get(self) -> u32
        ensures value { result ≡ self }
        ensures range { (1 ≤ result) × (result ≤ 8) }
    {
        u32::from(self.0)
    }
}

/// The number of a customer, 1 to 64.
#[derive(Clone, Copy, Debug, PartialEq, Eq)]
pub struct Customer(u8);

impl Model for Customer {
    ghost Value = { ℕ };

    ghost view = { λ c. c.0 };

    ghost invariant = { λ c. (1 ≤ c.0) × (c.0 ≤ 64) };

    ghost inverse = { λ n. record { 0 = n } };
}

impl Customer {
    /// None if and only if the number is not 1 to 64.
    pub fn new(n: u32) -> Option<Customer>
        ensures valid { IsSome result ↔ ((1 ≤ n) × (n ≤ 64)) }
        ensures value { IfSome result (λ c. c ≡ n) }
    {
        if 1 <= n && n <= 64 {
            Some(Customer(n as u8))
        } else {
            None
        }
    }

    pub fn get(self) -> u32
        ensures value { result ≡ self }
        ensures range { (1 ≤ result) × (result ≤ 64) }
    {
        u32::from(self.0)
    }
}

/// A day, 10957 (2000-01-01) to 84005 (2199-12-31); day 0 is 1970-01-01.
#[derive(Clone, Copy, Debug, PartialEq, Eq)]
pub struct DayNo(i32);

impl Model for DayNo {
    ghost use Rattle.std.specs.Prelude.{ℤ, pos, ◌≤ℤ◌};

    ghost Value = { ℤ };

    ghost view = { λ d. d.0 };

    ghost invariant = { λ d. (pos 10957 ≤ℤ d.0) × (d.0 ≤ℤ pos 84005) };

    ghost inverse = { λ n. record { 0 = n } };
}

impl DayNo {
    /// None if and only if the day is out of that range.
    pub fn new(n: i32) -> Option<DayNo>
        ensures valid { IsSome result ↔ ((pos 10957 ≤ℤ n) × (n ≤ℤ pos 84005)) }
        ensures value { IfSome result (λ d. d ≡ n) }
    {
        if 10957 <= n && n <= 84005 {
            Some(DayNo(n))
        } else {
            None
        }
    }

    pub fn get(self) -> i32
        ensures value { result ≡ self }
        ensures range { (pos 10957 ≤ℤ result) × (result ≤ℤ pos 84005) }
    {
        self.0
    }
}

/// Whether marks, requests and replies are read in this version: it is 1 or 2.
pub fn is_known_version(version: u8) -> bool
    ensures { result ≡ is_version version }
{
    version == 1 || version == 2
}
