//! What holds of all lists of commits and all rows, as contracts of functions that do nothing.
ghost use Rattle.centre_ledger.specs.ActLaws.{ActsLeaveSound, ActsFollow, ActsArePlanned};
ghost use Rattle.centre_ledger.specs.Laws.{DeviceRows, CustomerRows, SlotLaws, OrderLaws, SoundLaws, Rulings, StandingByRows};
ghost use Rattle.centre_ledger.specs.PayloadLaws.{PayloadLaws};

/// The rows of the centre follow from the commits:
///
/// 1. `devices` and `customers`: after each commit they are those of the commits and that one.
/// 2. `slots`: there is a row of a device if and only if it is registered, and of a customer if and only if it is open.
/// 3. `order`: the commit that a call's refusals leave comes in order.
/// 4. `sound`: each new row meets the conditions of a row.
/// 5. `rulings`: what the rows say of a verdict, of its reply, of the customer who pays and of a balance is what follows
///    from the commits.
/// 6. `standing`: what they say of what is acknowledged and in flight, and of a reply that is sent again, follows from the
///    commits too.
pub fn rows_follow_the_commits()
    ensures devices { DeviceRows }
    ensures customers { CustomerRows }
    ensures slots { SlotLaws }
    ensures order { OrderLaws }
    ensures sound { SoundLaws }
    ensures rulings { Rulings }
    ensures standing { StandingByRows }
{}

/// What the centre's calls do by its rows:
///
/// 1. `sound`: if a call commits a row, it is a commit of the centre, and the rows with that one are sound, also together.
/// 2. `follows`: if the rows are those of the commits before, they are then those of the commits and that one.
/// 3. `planned`: these rows show what the commits show. So what a call does by them is what it does by the commits, and the
///    ledger's plan is read off that.
pub fn acts_follow_the_commits()
    ensures sound { ActsLeaveSound }
    ensures follows { ActsFollow }
    ensures planned { ActsArePlanned }
{}

/// No payload reads as two rows of devices, whatever its version, or as two rows of customers; what is written for a
/// row reads as that row; and what reads as a row has 192 bytes.
pub fn one_row()
    ensures { PayloadLaws }
{}
