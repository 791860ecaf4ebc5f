//! The pieces that devices debited. Amounts are in mills.
use bench_base::numbers::DevNo;
use std::alloc::{AllocError, Global};

/// A piece that was debited.
#[derive(Clone, Copy)]
pub struct Piece {
    pub postage: u64,
    /// None if the mark was asked for in a way that the papers do not show.
    pub class: Option<u16>,
    /// The job that holds its mark, or before that the job with the message that asked for it.
    pub job: Option<u32>,
    /// Whether its mark was given out.
    pub released: bool,
    pub accepted: bool,
}

/// The pieces of each device, from piece 1 on.
#[derive(Drop)]
pub struct Pieces {
    of: Vec<Vec<Piece>>,
}

// The place of the piece, counted from 0.
fn place(piece: u32) -> Option<usize> {
    (piece as usize).checked_sub(1)
}

impl Pieces {
    /// No piece was debited. AllocError is lack of memory.
    pub fn new(alloc: Global) -> Result<Pieces, AllocError> {
        let mut of = Vec::new(alloc);
        for _ in 0..8 {
            of.push(Vec::new(alloc))?;
        }
        Ok(Pieces { of })
    }

    /// The pieces of the device, from piece 1 on.
    pub fn of_device(&self, device: DevNo) -> &[Piece] {
        match self.of.get(device.get() as usize - 1) {
            Some(pieces) => pieces.as_slice(),
            None => &[],
        }
    }

    /// The piece of the device; None if it was not debited.
    pub fn get(&self, device: DevNo, piece: u32) -> Option<Piece> {
        self.of_device(device).get(place(piece)?).copied()
    }

    /// Keeps the next piece of the device. AllocError is lack of memory.
    pub fn debit(&mut self, device: DevNo, piece: Piece) -> Result<(), AllocError> {
        if let Some(pieces) = self.of.get_mut(device.get() as usize - 1) {
            pieces.push(piece)?;
        }
        Ok(())
    }

    // Keeps this of the piece in place of what was kept, if it was debited.
    fn put(&mut self, device: DevNo, piece: u32, next: Piece) {
        let Some(at) = place(piece) else {
            return;
        };
        let Some(pieces) = self.of.get_mut(device.get() as usize - 1) else {
            return;
        };
        if let Some(row) = pieces.get_mut(at) {
            *row = next;
        }
    }

    /// Keeps that the mark of the piece was given out.
    pub fn release(&mut self, device: DevNo, piece: u32) {
        let Some(row) = self.get(device, piece) else {
            return;
        };
        let next = Piece {
            released: true,
            ..row
        };
        self.put(device, piece, next);
    }

    /// Keeps that the piece was accepted.
    pub fn accept(&mut self, device: DevNo, piece: u32) {
        let Some(row) = self.get(device, piece) else {
            return;
        };
        let next = Piece {
            accepted: true,
            ..row
        };
        self.put(device, piece, next);
    }

    /// Keeps that the job holds the mark of the piece, which is of this class.
    pub fn hold(&mut self, device: DevNo, piece: u32, job: u32, class: u16) {
        let Some(row) = self.get(device, piece) else {
            return;
        };
        let next = Piece {
            job: Some(job),
            class: Some(class),
            ..row
        };
        self.put(device, piece, next);
    }
}
