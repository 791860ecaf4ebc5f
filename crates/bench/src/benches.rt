//! Eight devices, the centre, the host and the verifier, each in its place; the day, the rates and the messages of the run.
ghost use Rattle.std.specs.Prelude.{◌≡◌, ◌≤◌, ◌<◌, ◌+◌, [], ◌∷◌, ◌++◌, Some, None, length, slice_get, IfOk, IfErr};
ghost use Rattle.std.specs.Vec.{vec_capacity};
ghost use Rattle.bench_base.specs.declared.{ledger.Entry.TheVariants.Begin, words.Node.Node as NodeNo};
ghost use Rattle.bench_base.specs.Ledger.{Ledger};
ghost use Rattle.bench_abstraction.specs.Kinds.{bench_kinds};
ghost use Rattle.bench.specs.declared.benches.TheConstants.{MOST_MESSAGES};
ghost use Rattle.std.specs.Option.{option_copied};

use crate::places::{device_over, device_storage, rows_over, rows_storage, stop_all};
use crate::stores::Stores;
use bench_base::bytes::Note;
use bench_base::numbers::DayNo;
use centre_protocol::{CentreNode, CentreRoom};
use host_node::{HostNode, HostRoom};
use host_rates::Rates;
use node_storage::Node;
use nv_model::{Fuse, Fused, Nv};
use psd_device::DeviceNode;
use std::alloc::{AllocError, Global};
use verifier_node::{VerifierNode, VerifierRoom};

/// How many messages a run may send.
pub const MOST_MESSAGES: usize = 1_000_000;

/// Eight devices, the centre, the host and the verifier over storages of type M, which are made of storages of type N.
#[derive(Drop)]
pub struct BenchOver<M: Nv, N> {
    pub(crate) devices: Vec<DeviceNode<M>>,
    pub(crate) centre: CentreNode<M>,
    pub(crate) host: HostNode<M>,
    pub(crate) verifier: VerifierNode<M>,
    pub(crate) day: Option<DayNo>,
    /// The rates that were read last in this run.
    pub(crate) rates: Option<Rates>,
    /// The messages of the run, the first that was sent first.
    pub(crate) messages: Vec<Note>,
    /// Room to hand the storages back.
    spare: Vec<N>,
    ghost room: { MOST_MESSAGES ≤ vec_capacity messages },
    ghost roomy: { 8 ≤ vec_capacity spare },
    ghost empty: { length spare.items ≡ 0 },
}

/// Eight devices, the centre, the host and the verifier over storages of type N, each with a fuse.
pub type Bench<N> = BenchOver<Fused<N>, N>;

/// What its nodes are, as contracts see them.
pub trait HasNodes {
    ghost use Rattle.bench.specs.Benches.{Nodes};

    /// The kinds of its nodes, with the storage under them, its fuse, and the storage that it is made of.
    ghost nodes: { Nodes };
}

impl<M: Fuse + Drop, N: Nv> HasNodes for BenchOver<M, N> {
    ghost use Rattle.bench.specs.Benches.{bench_nodes};

    ghost nodes = { bench_nodes ⟦<DeviceNode<M> as Node>⟧ ⟦<CentreNode<M> as Node>⟧ ⟦<HostNode<M> as Node>⟧
        ⟦<VerifierNode<M> as Node>⟧ bench_kinds M.Nv M.Fuse.own N.Nv };
}

impl<M: Fuse + Drop, N: Nv> BenchOver<M, N> {
    ghost use Rattle.bench.specs.Benches.{IsReady, Stands, bench_of};
    ghost use Rattle.bench.specs.Places.{Begun};

    /// Begins a run: each node is switched off, and the day, the rates and the messages are forgotten. The fuses stay.
    pub fn begin(&mut self)
        requires ready { IsReady (bench_of self.old) }
        ensures ready { IsReady (bench_of self.new) }
        ensures no_day { (bench_of self.new).day ≡ None }
        ensures no_messages { (bench_of self.new).messages ≡ [] }
        ensures no_rates { (bench_of self.new).rates ≡ None }
        ensures stands { (H : Ledger) → Stands ⟦<BenchOver<M, N> as HasNodes>⟧.nodes (bench_of self.old) H
            → Stands ⟦<BenchOver<M, N> as HasNodes>⟧.nodes (bench_of self.new) (Begin ∷ H) }
        ensures begun { Begun ⟦<BenchOver<M, N> as HasNodes>⟧.nodes (bench_of self.old) (bench_of self.new) }
    {
        self.day = None;
        self.rates = None;
        self.messages.clear();
        stop_all(&mut self.devices);
        let _centre_was_on = node_storage::stop(&mut self.centre);
        let _host_was_on = node_storage::stop(&mut self.host);
        let _verifier_was_on = node_storage::stop(&mut self.verifier);
    }
}

impl<M: Nv, N> BenchOver<M, N> {
    ghost use Rattle.bench.specs.Benches.{bench_of};
    ghost use Rattle.bench.specs.Steps.{notes_of};

    /// Sends this message, if there is one: it is the next of the run.
    pub(crate) fn send(&mut self, sent: Option<Note>)
        requires few { length (bench_of self.old).messages < MOST_MESSAGES }
        ensures { bench_of self.new
            ≡ record (bench_of self.old) { messages = (bench_of self.old).messages ++ notes_of sent } }
    {
        if let Some(note) = sent {
            match self.messages.push(note) {
                Ok(()) => {}
                Err(_) => unreachable!(),
            }
        }
    }

    /// Message k of this run, counted from 0; None if and only if fewer were sent.
    pub fn message(&self, k: u32) -> Option<&Note>
        ensures { option_copied result ≡ slice_get (bench_of self.now).messages k }
    {
        self.messages.get(k as usize)
    }
}

/// The memory of a bench beside its storages.
#[derive(Drop)]
struct Rooms {
    centre: CentreRoom,
    host: HostRoom,
    verifier: VerifierRoom,
}

impl Rooms {
    fn new(alloc: Global) -> Result<Rooms, AllocError> {
        let centre = CentreRoom::new(alloc)?;
        let host = HostRoom::new(alloc)?;
        let verifier = VerifierRoom::new(alloc)?;
        Ok(Rooms {
            centre,
            host,
            verifier,
        })
    }
}

impl<N: Nv + Drop> Bench<N> {
    ghost use Rattle.nv_model.specs.Meters.{Works};
    ghost use Rattle.bench.specs.Benches.{IsReady, Stands, StoresStand, AreBlank, bench_of, places_of, store_of};
    ghost use Rattle.bench.specs.Places.{AreOver, AreInside};

    /// A bench over these storages, which have power and no fuse: all nodes are off, and there is no day, no rates and no
    /// message. The memory that the nodes run in is allocated here, and also that for a run's messages: 1,000,000 of 88
    /// bytes. So sending a message allocates none. The bench represents what the storages represent, or the empty ledger if
    /// they are blank. If memory runs out, the storages are returned.
    pub fn new(alloc: Global, stores: Stores<N>) -> Result<Bench<N>, Stores<N>>
        requires eight { length stores.devices.items ≡ 8 }
        requires fresh { (m : NodeNo) (nv : N) → store_of (places_of stores) m ≡ Some nv → Works (N.meters nv) }
        ensures ready { IfOk result (λ bench. IsReady (bench_of bench)) }
        ensures no_day { IfOk result (λ bench. (bench_of bench).day ≡ None) }
        ensures no_messages { IfOk result (λ bench. (bench_of bench).messages ≡ []) }
        ensures no_rates { IfOk result (λ bench. (bench_of bench).rates ≡ None) }
        ensures over { IfOk result (λ bench. AreOver (places_of stores) (bench_of bench)) }
        ensures stands { IfOk result (λ bench. (H : Ledger)
            → StoresStand ⟦<Bench<N> as HasNodes>⟧.nodes (places_of stores) H
            → Stands ⟦<Bench<N> as HasNodes>⟧.nodes (bench_of bench) H) }
        ensures blank { IfOk result (λ bench. AreBlank N.Nv (places_of stores)
            → Stands ⟦<Bench<N> as HasNodes>⟧.nodes (bench_of bench) []) }
        ensures back { IfErr result (λ left. left ≡ stores) }
    {
        let rooms = match Rooms::new(alloc) {
            Ok(rooms) => rooms,
            Err(_) => return Err(stores),
        };
        let mut devices = match Vec::with_capacity(alloc, 8) {
            Ok(devices) => devices,
            Err(_) => return Err(stores),
        };
        let messages = match Vec::with_capacity(alloc, MOST_MESSAGES) {
            Ok(messages) => messages,
            Err(_) => return Err(stores),
        };
        let Stores {
            devices: mut spare,
            centre,
            host,
            verifier,
        } = stores;
        for _ in 0..8usize {
            match spare.pop() {
                Some(nv) => match devices.push(device_over(nv)) {
                    Ok(()) => {}
                    Err(_) => unreachable!(),
                },
                None => unreachable!(),
            }
        }
        devices.reverse();
        Ok(BenchOver {
            devices,
            centre: rows_over(centre, rooms.centre),
            host: rows_over(host, rooms.host),
            verifier: rows_over(verifier, rooms.verifier),
            day: None,
            rates: None,
            messages,
            spare,
        })
    }

    /// The storages, without their fuses. A node that is on is switched off. They represent what the bench represented,
    /// with a new run begun. A storage that lost power needs a restart before another bench is made of it.
    pub fn into_stores(self) -> Stores<N>
        requires ready { IsReady (bench_of self) }
        ensures inside { AreInside (bench_of self) (places_of result) }
        ensures stands { (H : Ledger) → Stands ⟦<Bench<N> as HasNodes>⟧.nodes (bench_of self) H
            → StoresStand ⟦<Bench<N> as HasNodes>⟧.nodes (places_of result) (Begin ∷ H) }
    {
        let BenchOver {
            devices,
            centre,
            host,
            verifier,
            day: _,
            rates: _,
            messages: _,
            spare,
        } = self;
        let mut devices = devices;
        let mut stores = spare;
        for _ in 0..8usize {
            match devices.pop() {
                Some(device) => match stores.push(device_storage(device)) {
                    Ok(()) => {}
                    Err(_) => unreachable!(),
                },
                None => unreachable!(),
            }
        }
        stores.reverse();
        Stores {
            devices: stores,
            centre: rows_storage(centre),
            host: rows_storage(host),
            verifier: rows_storage(verifier),
        }
    }
}
