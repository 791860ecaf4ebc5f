//! How the centre ruled.
use audit_book::{Ruling, last_ruling};
use bench_base::numbers::DevNo;
use trace_bench::Auditor;

/// The last ruling of the centre on the device, by the commits that count. None if there was no ruling.
pub(crate) fn ruling_of(auditor: &Auditor, device: DevNo) -> Option<Ruling> {
    last_ruling(auditor.device_row(device)?)
}
