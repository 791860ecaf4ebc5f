//! The calls of the host: what each does by the host's jobs, and what the host says of it. Postage is in mills.
ghost use Rattle.bench_base.specs.declared.words.Node.TheVariants as node;
ghost use Rattle.bench_base.specs.declared.events.Reply.TheVariants as r;
ghost use Rattle.bench_base.specs.Ranges.{IsDevice};
ghost use Rattle.host_jobs.specs.ActLaws.{IsPrice};
ghost use Rattle.host_jobs.specs.Acts as acts;
ghost use Rattle.host_jobs.specs.Soundness.{IsNext};
ghost use Rattle.host_jobs.specs.Plans as told;

use bench_abstraction::{CloseCall, OrderCall, PrintCall, SendCall, TakeReleaseCall};
use bench_base::bytes::Note;
use bench_base::events::Reply;
use bench_base::refusals::HostRefusal;
use bench_base::words::Node as NodeNo;
use host_jobs::{
    HostAct, JobRow, JobsOf, Ordered, begin_print_act, close_act, debit_message_act, order_act,
    take_act,
};
use node_acts::{Call, Callee, GivenOut, Holds, Printed, Said};

/// The host, where it is called.
#[derive(Drop)]
pub struct HostCallee;

impl Callee for HostCallee {
    type Refusal = HostRefusal;

    ghost named = { λ c. node.Host };

    ghost refuses = { λ c x. r.HostRefused x };

    fn name(&self) -> NodeNo {
        NodeNo::Host
    }

    fn refusal(&self, refusal: HostRefusal) -> Reply {
        Reply::HostRefused(refusal)
    }
}

impl<R: Holds + JobsOf<R::By>> Call<HostCallee, R, JobRow> for OrderCall {
    type Answer = Ordered;

    ghost IsAsked = { λ c. IsDevice c.device × IsPrice c.price };

    ghost does = { λ c e s. acts.order_act c.device c.piece c.class c.price (R.jobs s) };

    ghost says = { λ c e a. told.told_ordered a };

    ghost Makes = { λ s x. IsNext (R.jobs s) x };

    fn act(&self, _callee: &HostCallee, held: &R) -> HostAct<Ordered> {
        order_act(
            self.device,
            self.piece,
            self.class,
            self.price,
            held.jobs(),
            held.kept(),
        )
    }

    fn answer(&self, _callee: &HostCallee, done: &Ordered) -> Said {
        Said::of(Reply::Ordered {
            job: done.job,
            postage: done.postage,
        })
    }
}

impl<R: Holds + JobsOf<R::By>> Call<HostCallee, R, JobRow> for SendCall {
    type Answer = Note;

    ghost IsAsked = { λ c. Unit {0} };

    ghost does = { λ c e s. acts.debit_message_act c.job (R.jobs s) };

    ghost says = { λ c e note. told.told_sent c.job c.message note };

    ghost Makes = { λ s x. IsNext (R.jobs s) x };

    fn act(&self, _callee: &HostCallee, held: &R) -> HostAct<Note> {
        debit_message_act(self.job, held.jobs())
    }

    fn answer(&self, _callee: &HostCallee, note: &Note) -> Said {
        Said::sending(
            Reply::SentDebit {
                job: self.job,
                message: self.message,
            },
            *note,
        )
    }
}

impl<R: Holds + JobsOf<R::By>> Call<HostCallee, R, JobRow> for PrintCall {
    type Answer = [u8; 64];

    ghost IsAsked = { λ c. Unit {0} };

    ghost does = { λ c e s. acts.begin_print_act c.job (R.jobs s) };

    ghost says = { λ c e mark. told.told_printed c.job mark };

    ghost Makes = { λ s x. IsNext (R.jobs s) x };

    fn act(&self, _callee: &HostCallee, held: &R) -> HostAct<[u8; 64]> {
        begin_print_act(self.job, held.jobs(), held.kept())
    }

    fn answer(&self, _callee: &HostCallee, mark: &[u8; 64]) -> Said {
        let job = self.job;
        Said::giving(
            Reply::Printed(job),
            GivenOut::Printed(Printed { job, mark: *mark }),
        )
    }
}

impl<R: Holds + JobsOf<R::By>> Call<HostCallee, R, JobRow> for CloseCall {
    type Answer = ();

    ghost IsAsked = { λ c. Unit {0} };

    ghost does = { λ c e s. acts.close_act c.job (R.jobs s) };

    ghost says = { λ c e u. told.told_closed c.job u };

    ghost Makes = { λ s x. IsNext (R.jobs s) x };

    fn act(&self, _callee: &HostCallee, held: &R) -> HostAct<()> {
        close_act(self.job, held.jobs(), held.kept())
    }

    fn answer(&self, _callee: &HostCallee, _closed: &()) -> Said {
        Said::of(Reply::Closed(self.job))
    }
}

impl<'a, R: Holds + JobsOf<R::By>> Call<HostCallee, R, JobRow> for TakeReleaseCall<'a> {
    type Answer = u32;

    ghost IsAsked = { λ c. Unit {0} };

    ghost does = { λ c e s. acts.take_act c.bytes (R.jobs s) };

    ghost says = { λ c e j. told.told_held j };

    ghost Makes = { λ s x. IsNext (R.jobs s) x };

    fn act(&self, _callee: &HostCallee, held: &R) -> HostAct<u32> {
        take_act(self.bytes.as_slice(), held.jobs(), held.kept())
    }

    fn answer(&self, _callee: &HostCallee, job: &u32) -> Said {
        Said::of(Reply::Held(*job))
    }
}
