//! The storages of a folder, compared with what the runs left.
ghost use Rattle.trace_bench.specs.Seeing.{IsReady, audit_of};

use crate::desks::Desks;
use crate::digest::{Hashed, Sum, sum_text};
use crate::faults::{Fault, or_memory};
use crate::files::unusable;
use crate::held::HeldFolder;
use crate::own_storages::{are_own_as_left, compare_own, tell_own_digests};
use crate::plan::Plan;
use crate::runs::{Gathered, say, say_finding};
use crate::storage_files::{
    FileFault, STORAGES, file_fault, file_fault_text, node_at, path_in, storage_bytes, storage_name,
};
use crate::verdicts::FINDING;
use audit_words::{Asked, shown_text};
use bench_base::stream::{IoSource, ReadFail};
use bench_base::words::Node;
use sha2::{Digest, Sha256};
use std::alloc::{AllocError, Global};
use std::cell::RefCell;
use std::fs::File;
use std::io::BufReader;
use trace_bench::Auditor;
use trace_folder::{
    Due, Found, MOST_CELL, Shows, centre_due, centre_shows, device_due, device_shows, found_in,
    host_due, host_shows, verifier_due, verifier_shows,
};

/// How much of a storage is read at once, in bytes.
const BLOCK: usize = 65_536;

/// A storage that is read.
type Image<'a> = IoSource<BufReader<Hashed<'a, File>>>;

/// What is said of a storage.
#[derive(Clone, Copy)]
enum StorageFinding {
    Counted,
    Open,
    /// The cell, what it should hold, and what it holds.
    Other(u32, Due, Found),
    /// What is wrong with the file as such.
    Unfit(FileFault),
}

// What the image of the node's storage shows. The first cell that shows something else is then in the buffer.
fn image_shows(
    auditor: &Auditor,
    node: &Node,
    image: &mut Image<'_>,
    buffer: &mut [u8; MOST_CELL],
) -> Result<Shows, ReadFail>
    requires ready { IsReady (audit_of auditor.now) }
{
    match node {
        Node::Device(device) => device_shows(auditor.device_node(*device), *device, image, buffer),
        Node::Centre => centre_shows(auditor.centre_node(), image, buffer),
        Node::Host => host_shows(auditor.host_node(), image, buffer),
        Node::Verifier => verifier_shows(auditor.verifier_node(), image, buffer),
    }
}

// What the cell of the node at this place should hold.
fn due_in(auditor: &Auditor, node: &Node, place: u32) -> Due
    requires ready { IsReady (audit_of auditor.now) }
{
    match node {
        Node::Device(device) => device_due(auditor.device_node(*device)),
        Node::Centre => centre_due(auditor.centre_node(), place),
        Node::Host => host_due(auditor.host_node(), place),
        Node::Verifier => verifier_due(auditor.verifier_node(), place),
    }
}

// What the cell of the node in the buffer holds.
fn found_of(node: &Node, buffer: &[u8; MOST_CELL]) -> Found {
    match node {
        Node::Device(_) => found_in(&buffer[..3_424], 16, 209),
        Node::Centre => found_in(&buffer[..394], 2, 192),
        Node::Host => found_in(&buffer[..240], 2, 115),
        Node::Verifier => found_in(&buffer[..4_122], 2, 2_056),
    }
}

// The bytes of a storage, which are read in blocks and hashed.
fn open_storage<'a>(
    rt: &HostRuntime,
    path: &str,
    hasher: &'a RefCell<Sha256>,
) -> Result<Image<'a>, Fault> {
    let Ok(inner) = File::open(rt, path) else {
        return Err(unusable(rt, path));
    };
    let hashed = Hashed { inner, hasher };
    let Ok(reader) = BufReader::with_capacity(rt.alloc(), BLOCK, hashed) else {
        return Err(Fault::Memory);
    };
    Ok(IoSource::new(reader))
}

// What the file of this path shows of the node.
fn look_at(
    rt: &HostRuntime,
    auditor: &Auditor,
    node: &Node,
    path: &str,
    hasher: &RefCell<Sha256>,
    buffer: &mut [u8; MOST_CELL],
) -> Result<StorageFinding, Fault>
    requires ready { IsReady (audit_of auditor.now) }
{
    if let Some(fault) = file_fault(rt, path, storage_bytes(node))? {
        return Ok(StorageFinding::Unfit(fault));
    }
    let mut image = open_storage(rt, path, hasher)?;
    match image_shows(auditor, node, &mut image, buffer) {
        Ok(Shows::Counted) => Ok(StorageFinding::Counted),
        Ok(Shows::Open) => Ok(StorageFinding::Open),
        Ok(Shows::Other(place)) => Ok(StorageFinding::Other(
            place,
            due_in(auditor, node, place),
            found_of(node, buffer),
        )),
        Err(_) => Err(unusable(rt, path)),
    }
}

// So many commits.
fn commits_text(alloc: Global, count: u64) -> Result<String, AllocError> {
    match count {
        0 => String::from_str(alloc, "no commit"),
        1 => String::from_str(alloc, "1 commit"),
        _ => format!(in alloc; "{count} commits"),
    }
}

// What a cell should hold.
fn due_text(alloc: Global, due: Due) -> Result<String, AllocError> {
    let counted = commits_text(alloc, u64::from(due.count))?;
    if !due.is_open {
        return Ok(counted);
    }
    let more = u64::from(due.count) + 1;
    format!(in alloc; "{counted} or {more}")
}

// What a cell holds that is not what it should hold.
fn found_text(alloc: Global, due: Due, found: Found) -> Result<String, AllocError> {
    match found {
        Found::Mixed => String::from_str(alloc, "slots that no commit leaves"),
        Found::Blank => commits_text(alloc, 0),
        Found::Count(count) => {
            let text = commits_text(alloc, u64::from(count))?;
            let is_due = count == due.count
                || due.is_open && u64::from(count) == u64::from(due.count) + 1;
            if is_due {
                format!(in alloc; "{text} with other content")
            } else {
                Ok(text)
            }
        }
    }
}

// Which cell of the node this is: a device has one.
fn cell_text(alloc: Global, node: &Node, place: u32) -> Result<String, AllocError> {
    match node {
        Node::Device(_) => Ok(String::new(alloc)),
        Node::Centre if place < 8 => {
            format!(in alloc; " cell {place}, device {}", place.saturating_add(1))
        }
        Node::Centre => format!(in alloc; " cell {place}, customer {}", place.saturating_sub(7)),
        Node::Verifier if place < 8 => {
            format!(in alloc; " cell {place}, device {}", place.saturating_add(1))
        }
        Node::Host | Node::Verifier => format!(in alloc; " cell {place}"),
    }
}

// The line of a cell that shows neither.
fn other_text(
    alloc: Global,
    file: &str,
    node: &Node,
    place: u32,
    due: Due,
    found: Found,
) -> Result<String, AllocError> {
    let cell = cell_text(alloc, node, place)?;
    let due_here = due_text(alloc, due)?;
    let found_here = found_text(alloc, due, found)?;
    format!(in alloc; "{file}{cell}: due {due_here}, found {found_here}")
}

// The line of a storage, if it has one.
fn finding_text(
    alloc: Global,
    file: &str,
    node: &Node,
    is_open: bool,
    finding: StorageFinding,
) -> Result<Option<String>, AllocError> {
    let text = match finding {
        StorageFinding::Counted if is_open => format!(in alloc;
            "{file} is without the commit in doubt"
        )?,
        StorageFinding::Counted => return Ok(None),
        StorageFinding::Open => format!(in alloc; "{file} has the commit in doubt")?,
        StorageFinding::Other(place, due, found) => other_text(
            alloc, file, node, place, due, found,
        )?,
        StorageFinding::Unfit(fault) => {
            file_fault_text(alloc, file, storage_bytes(node), fault)?
        }
    };
    Ok(Some(text))
}

// Whether this is a finding.
fn is_other(finding: StorageFinding) -> bool {
    match finding {
        StorageFinding::Counted | StorageFinding::Open => false,
        StorageFinding::Other(_, _, _) | StorageFinding::Unfit(_) => true,
    }
}

// Compares the storage of the node, and says what is to be said of it: the exit status.
fn report_storage(
    rt: &HostRuntime,
    asked: Asked,
    auditor: &Auditor,
    node: &Node,
    folder: &str,
    hasher: &RefCell<Sha256>,
    buffer: &mut [u8; MOST_CELL],
) -> Result<u8, Fault>
    requires ready { IsReady (audit_of auditor.now) }
{
    let file = or_memory(storage_name(rt.alloc(), node))?;
    let path = or_memory(path_in(rt.alloc(), folder, file.as_str()))?;
    let finding = look_at(rt, auditor, node, path.as_str(), hasher, buffer)?;
    let is_open = auditor.is_open(node);
    let Some(text) = or_memory(finding_text(rt.alloc(), file.as_str(), node, is_open, finding))?
    else {
        return Ok(0);
    };
    if is_other(finding) {
        return Ok(say_finding(rt, asked, text.as_str()));
    }
    say(rt, asked, text.as_str())?;
    Ok(0)
}

// Compares the storages of the nodes in the folder, which are hashed, and says what is to be said of each: the exit status.
fn tell_each(
    rt: &HostRuntime,
    asked: Asked,
    auditor: &Auditor,
    folder: &str,
    hasher: &RefCell<Sha256>,
) -> Result<u8, Fault>
    requires ready { IsReady (audit_of auditor.now) }
{
    let mut code = 0;
    let mut buffer = [0; MOST_CELL];
    for number in 0..STORAGES {
        let node = node_at(number + 1);
        let finding = report_storage(rt, asked, auditor, &node, folder, hasher, &mut buffer)?;
        code = code.max(finding);
    }
    Ok(code)
}

/// Compares the storages of the folder, if one is named, with what the runs left, and says what is to be said of each: the exit status. If nothing is found,
/// the digests are the last lines.
pub fn tell_storages(
    rt: &HostRuntime,
    plan: &Plan,
    auditor: &Auditor,
    gathered: &Gathered,
) -> Result<u8, Fault>
    requires ready { IsReady (audit_of auditor.now) }
{
    let Some(folder) = &plan.storages else {
        return Ok(0);
    };
    let (asked, name) = (plan.asked, folder.name.as_str());
    let hasher = RefCell::new(Sha256::new());
    let code = tell_each(rt, asked, auditor, name, &hasher)?;
    let own = compare_own(
        rt,
        asked,
        name,
        &gathered.desks.claims,
        &gathered.desks.departments,
    )?;
    let sums = match own {
        Some(sums) if code != FINDING => sums,
        _ => return Ok(FINDING),
    };
    let shown = or_memory(shown_text(rt.alloc(), name))?;
    let text = or_memory(format!(in rt.alloc(); "folder {shown} shows what the runs left"))?;
    say(rt, asked, text.as_str())?;
    tell_digest(rt, asked, shown.as_str(), &hasher.into_inner().finalize())?;
    tell_own_digests(rt, asked, shown.as_str(), &sums)?;
    Ok(0)
}

// Whether the storages of the nodes in the folder show what the runs left.
fn are_nodes_as_left(rt: &HostRuntime, auditor: &Auditor, folder: &str) -> Result<bool, Fault>
    requires ready { IsReady (audit_of auditor.now) }
{
    let hasher = RefCell::new(Sha256::new());
    let mut buffer = [0; MOST_CELL];
    for number in 0..STORAGES {
        let node = node_at(number + 1);
        let file = or_memory(storage_name(rt.alloc(), &node))?;
        let path = or_memory(path_in(rt.alloc(), folder, file.as_str()))?;
        if is_other(look_at(rt, auditor, &node, path.as_str(), &hasher, &mut buffer)?) {
            return Ok(false);
        }
    }
    Ok(true)
}

/// Whether the storages of the folder show what the runs left, as `tell_storages` says it.
pub fn are_as_left(
    rt: &HostRuntime,
    auditor: &Auditor,
    desks: &Desks,
    folder: &HeldFolder,
) -> Result<bool, Fault>
    requires ready { IsReady (audit_of auditor.now) }
{
    let name = folder.name.as_str();
    if !are_nodes_as_left(rt, auditor, name)? {
        return Ok(false);
    }
    are_own_as_left(rt, name, &desks.claims, &desks.departments)
}

/// Prints the digest of the storages of the nodes in the folder of this name, as it is shown.
pub fn tell_digest(rt: &HostRuntime, asked: Asked, shown: &str, sum: &Sum) -> Result<(), Fault> {
    let digits = or_memory(sum_text(rt.alloc(), sum))?;
    let text = or_memory(format!(in rt.alloc(); "folder {shown} has digest {digits}"))?;
    say(rt, asked, text.as_str())
}
