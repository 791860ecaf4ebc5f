//! The source of the rates.
use bench_base::stream::{ReadFail, Source};

/// A source that may be missing; then it is empty.
#[derive(Drop)]
pub enum RatesFile<S: Source> {
    Missing,
    There(S),
}

impl<S: Source> Source for RatesFile<S> {
    ghost use Rattle.meter_run.specs.RatesFile.{left_of, faults_of};

    ghost left = { λ s. left_of (λ t. S.left t) s };

    ghost faults = { λ s. faults_of (λ t. S.faults t) s };

    fn read(&mut self, buf: &mut [u8]) -> Result<usize, ReadFail> {
        match self {
            RatesFile::Missing => Ok(0),
            RatesFile::There(source) => source.read(buf),
        }
    }
}
