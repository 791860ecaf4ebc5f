//! What an auditor has of a node is sound: its storage can show it.
ghost use Rattle.std.specs.Prelude.{List, ℕ};
ghost use Rattle.psd_state.specs.State.{State};
ghost use Rattle.psd_state.specs.Seen as device_seen;
ghost use Rattle.psd_device.specs.Sound as device_node;
ghost use Rattle.centre_ledger.specs.Seen as centre_seen;
ghost use Rattle.centre_protocol.specs.Sound as centre_node;
ghost use Rattle.host_jobs.specs.Seen as host_seen;
ghost use Rattle.verifier.specs.Seen as verifier_seen;
ghost use Rattle.trace_nodes.specs.declared.traced.Traced.{Traced as TracedNode};
ghost use Rattle.trace_device.specs.declared.record.DeviceRecord.{DeviceRecord};
ghost use Rattle.trace_device.specs.Records as device;
ghost use Rattle.trace_centre.specs.Cells as centre;
ghost use Rattle.trace_host.specs.Cells as host;
ghost use Rattle.trace_verifier.specs.Cells as verifier;
ghost use Rattle.trace_folder.specs.Images.{IsDue, DeviceImageIs};
ghost use Rattle.trace_folder.specs.Sound.{AreSoundRecords};

use centre_ledger::Row;
use host_jobs::JobRow;
use trace_centre::{CentreRecord, is_sound};
use trace_host::HostRecord;
use trace_nodes::Traced;
use trace_verifier::ScanRecord;
use verifier::Change;

/// What an auditor has of a device is sound, also with the commit in doubt, if an image shows it.
pub fn devices_are_sound()
    ensures { (d : ℕ) (t : TracedNode DeviceRecord State) (image : List ℕ) → IsDue (DeviceImageIs d t image)
        → AreSoundRecords device_seen.counting (device_node.IsSound d) (device.view_of t) }
{}

/// What an auditor has of the centre is sound, also with the commit in doubt.
pub fn centre_is_sound(traced: &Traced<CentreRecord, Row>)
    requires settled { centre.IsSettled traced.now }
    ensures { AreSoundRecords centre_seen.counting centre_node.IsSound (centre.view_of traced.now) }
{
    is_sound(&traced.record);
}

/// What an auditor has of the host is sound, also with the commit in doubt.
pub fn host_is_sound(traced: &Traced<HostRecord, JobRow>)
    requires settled { host.IsSettled traced.now }
    ensures { AreSoundRecords host_seen.counting host_seen.IsKnown (host.view_of traced.now) }
{
    let _traced = traced;
}

/// What an auditor has of the verifier is sound, also with the commit in doubt.
pub fn verifier_is_sound(traced: &Traced<ScanRecord, Change>)
    requires settled { verifier.IsSettled traced.now }
    ensures { AreSoundRecords verifier_seen.counting verifier_seen.IsKnown (verifier.view_of traced.now) }
{
    let _traced = traced;
}
