//! Laws of the definitions. Each function does nothing: its contract is the law.
ghost use Rattle.std.specs.Prelude.{◌≡◌, ◌↔◌, ◌+◌, ◌-◌, ◌≤◌, ◌+ℤ◌, ◌-ℤ◌, ◌==◌, ℕ, ℤ, pos, false, List, ◌∷◌, sum};
ghost use Rattle.bench_base.specs.declared.{words.Verdict.Verdict, words.Node.TheVariants.Device, words.Node.TheVariants.Centre, words.Node.TheVariants.Host, words.Node.TheVariants.Verifier, ledger.Commit.Commit, ledger.Entry.Entry};
ghost use Rattle.bench_base.specs.declared.ledger.Commit.TheVariants as c;
ghost use Rattle.bench_base.specs.Nodes.{same_node, node_of};
ghost use Rattle.bench_base.specs.Ledger.{Ledger, counted};
ghost use Rattle.bench_base.specs.Jobs.{last_job, job_of, held_of, state_of, begun, open_job, top};
ghost use Rattle.bench_base.specs.Scans.{trusted, accepted, blocks};
ghost use Rattle.ledger_terms.specs.Requests.{request_of};
ghost use Rattle.ledger_terms.specs.Sums.{buys, returns, loads, clears, spent, bought, returned, loaded, refunded, ascending, descending, whole_descending};
ghost use Rattle.ledger_terms.specs.Centres.{deposits, customer_bought, customer_returned, balance, whole_balance};
ghost use Rattle.ledger_book.specs.Growth.{newest, grown};
ghost use Rattle.ledger_book.specs.Views.{of_device, device_made, device_asked, device_applied, device_debited, of_centre, centre_registered, centre_ruled, centre_settled, of_customer};

/// One more entry adds only the commit that counts by it.
pub fn growth()
    ensures { (x : Entry) (H : Ledger) → counted (x ∷ H) ≡ grown (newest (x ∷ H)) (counted H) }
{}

/// A commit of another node changes nothing of this one.
pub fn other_nodes()
    ensures device { (d : ℕ) (x : Commit) (C : List Commit) → same_node (node_of x) (Device d) ≡ false
        → of_device d (x ∷ C) ≡ of_device d C }
    ensures centre { (d : ℕ) (x : Commit) (C : List Commit) → same_node (node_of x) Centre ≡ false
        → of_centre d (x ∷ C) ≡ of_centre d C }
    ensures customer { (w : ℕ) (x : Commit) (C : List Commit) → same_node (node_of x) Centre ≡ false
        → of_customer w (x ∷ C) ≡ of_customer w C }
    ensures job { (j : ℕ) (x : Commit) (C : List Commit) → same_node (node_of x) Host ≡ false
        → (job_of j (x ∷ C) ≡ job_of j C) × (held_of j (x ∷ C) ≡ held_of j C) × (state_of j (x ∷ C) ≡ state_of j C)
        × (begun j (x ∷ C) ≡ begun j C) }
    ensures host { (d : ℕ) (x : Commit) (C : List Commit) → same_node (node_of x) Host ≡ false
        → (last_job (x ∷ C) ≡ last_job C) × (open_job d (x ∷ C) ≡ open_job d C) × (top d (x ∷ C) ≡ top d C) }
    ensures verifier { (d p : ℕ) (x : Commit) (C : List Commit) → same_node (node_of x) Verifier ≡ false
        → (trusted d (x ∷ C) ≡ trusted d C) × (accepted d p (x ∷ C) ≡ accepted d p C) × (blocks (x ∷ C) ≡ blocks C) }
{}

/// What one more commit of a device does to it.
pub fn device_steps()
    ensures made { (d : ℕ) (key : List ℕ) (C : List Commit)
        → of_device d (c.Made d key ∷ C) ≡ device_made key (of_device d C) }
    ensures asked { (d n : ℕ) (note : List ℕ) (C : List Commit)
        → of_device d (c.Asked d n note ∷ C) ≡ device_asked n note (of_device d C) }
    ensures applied { (d n : ℕ) (v : Verdict) (C : List Commit)
        → of_device d (c.Applied d n v ∷ C) ≡ device_applied n v (request_of d n C) (of_device d C) }
    ensures debited { (d piece postage class version : ℕ) (day : ℤ) (C : List Commit)
        → of_device d (c.Debited d piece postage class day version ∷ C) ≡ device_debited postage day (of_device d C) }
{}

/// What one more commit of the centre does to its record of the device, and that it changes nothing of another device.
pub fn centre_steps()
    ensures registered { (d origin : ℕ) (key : List ℕ) (C : List Commit)
        → of_centre d (c.Registered d origin key ∷ C) ≡ centre_registered origin key (of_centre d C) }
    ensures ruled { (d n : ℕ) (v : Verdict) (note : List ℕ) (C : List Commit)
        → of_centre d (c.Ruled d n v note ∷ C) ≡ centre_ruled n v note (of_centre d C) }
    ensures settled { (d n : ℕ) (C : List Commit) → of_centre d (c.Settled d n ∷ C) ≡ centre_settled n (of_centre d C) }
    ensures other_registered { (e d origin : ℕ) (key : List ℕ) (C : List Commit) → (e == d) ≡ false
        → of_centre d (c.Registered e origin key ∷ C) ≡ of_centre d C }
    ensures other_ruled { (e d n : ℕ) (v : Verdict) (note : List ℕ) (C : List Commit) → (e == d) ≡ false
        → of_centre d (c.Ruled e n v note ∷ C) ≡ of_centre d C }
    ensures other_settled { (e d n : ℕ) (C : List Commit) → (e == d) ≡ false
        → of_centre d (c.Settled e n ∷ C) ≡ of_centre d C }
{}

/// The sums are those of the lists of amounts. If no more was spent and refunded than loaded, and no more bought than deposited and
/// returned, subtraction in natural numbers cuts nothing off, and the account of the registers is the same in the integers.
pub fn sums_of_lists()
    ensures bought { (d : ℕ) (C : List Commit) → bought d C ≡ sum (buys d C) }
    ensures returned { (d : ℕ) (C : List Commit) → returned d C ≡ sum (returns d C) }
    ensures loaded { (d : ℕ) (C : List Commit) → loaded d C ≡ sum (loads d C) }
    ensures refunded { (d : ℕ) (C : List Commit) → refunded d C ≡ sum (clears d C) }
    ensures ascending { (d : ℕ) (C : List Commit) → ascending d C ≡ sum (spent d C) }
    ensures descending { (d : ℕ) (C : List Commit) → ascending d C + refunded d C ≤ loaded d C
        → whole_descending d C ≡ pos (descending d C) }
    ensures account { (d resets refunds adds takes : ℕ) (C : List Commit) → ascending d C + refunded d C ≤ loaded d C
        → (ascending d C + descending d C + (refunds + takes) ≡ resets + adds)
        ↔ ((pos (ascending d C) +ℤ whole_descending d C) ≡ ((pos resets -ℤ pos refunds) +ℤ (pos adds -ℤ pos takes))) }
    ensures balance { (w : ℕ) (C : List Commit) → customer_bought w C ≤ deposits w C + customer_returned w C
        → whole_balance w C ≡ pos (balance w C) }
{}
