//! What is to be done: what waits, how soon, and the line to type.
use audit_facts::{DeviceStanding, PageContent, device_slot};
use audit_markup::{MOST_ROWS, many, put_date, put_date_words, put_more};
use audit_sheet::Sheet;
use audit_tally::Job;
use bench_base::numbers::DayNo;
use bench_base::words::{JobState, Kind, Node, Phase};

/// How many days a device franks small pieces after its deadline.
const GRACE: i64 = 7;

/// The most postage of a small piece, in mills.
const SMALL: i128 = 1000;

/// How many days before a deadline, or before nothing is left, that is said.
const WARNED: i64 = 14;

/// How many days the pace is taken over.
const PACE: u64 = 28;

/// How many jobs later one that is still open blocks the host, and from which on that is said.
const CELLS: u64 = 1024;

const WARNED_CELLS: u64 = 768;

/// How soon something is to be done.
#[derive(Clone, Copy, PartialEq, Eq)]
enum Level {
    Now,
    Soon,
    Open,
}

/// The list on its way: the level that is put, and how many items there are.
#[derive(Clone, Copy)]
struct List {
    level: Level,
    today: i64,
    count: usize,
}

impl List {
    // Begins an item of this level, if it is that which is put, and there is room for it.
    fn begins(&mut self, sheet: &mut Sheet, level: Level) -> bool {
        if self.level != level {
            return false;
        }
        if self.count == 0 {
            sheet.put_own("<ul class=\"do\">");
        }
        self.count = self.count.saturating_add(1);
        if self.count > MOST_ROWS {
            return false;
        }
        sheet.put_own(match level {
            Level::Now => "<li class=\"now\"><span class=\"tag\">now</span><div><b>",
            Level::Soon => "<li class=\"soon\"><span class=\"tag\">soon</span><div><b>",
            Level::Open => "<li class=\"note\"><span class=\"tag\">open</span><div><b>",
        });
        true
    }
}

// Ends an item by the line to type, up to the number in it.
fn put_line(sheet: &mut Sheet, front: &'static str, number: u32, back: &'static str) {
    sheet.put_own("</div><code>");
    sheet.put_own(front);
    sheet.put_number(number as u64);
    sheet.put_own(back);
    sheet.put_own("</code></li>");
}

// Puts the name of a device.
fn put_device(sheet: &mut Sheet, number: u32) {
    sheet.put_own("d");
    sheet.put_number(number as u64);
}

fn put_overdue(sheet: &mut Sheet, list: &mut List, device: &DeviceStanding) {
    if !list.begins(sheet, Level::Now) {
        return;
    }
    let number = device.device.get();
    let due = i64::from(device.deadline);
    put_device(sheet, number);
    if list.today <= due.saturating_add(GRACE) {
        sheet.put_own(": inspection overdue</b> It was due on ");
        put_date_words(sheet, due);
        sheet.put_own(". Until ");
        put_date_words(sheet, due.saturating_add(GRACE));
        sheet.put_own(" it franks pieces of at most ");
        sheet.put_mills(SMALL);
        sheet.put_own(", after that none.");
    } else {
        sheet.put_own(": locked</b> Its inspection was due on ");
        put_date_words(sheet, due);
        sheet.put_own(". It franks nothing.");
    }
    put_line(sheet, "ask d", number, " audit");
}

fn put_due(sheet: &mut Sheet, list: &mut List, device: &DeviceStanding) {
    let due = i64::from(device.deadline);
    let days = due.saturating_sub(list.today);
    if days > WARNED || !list.begins(sheet, Level::Soon) {
        return;
    }
    let number = device.device.get();
    put_device(sheet, number);
    sheet.put_own(": inspection due ");
    if days == 0 {
        sheet.put_own("today");
    } else {
        sheet.put_own("in ");
        many(sheet, u64::try_from(days).unwrap_or(0), "day", "days");
    }
    sheet.put_own("</b> After ");
    put_date_words(sheet, due);
    sheet.put_own(" it is locked. A granted reset counts as an inspection.");
    put_line(sheet, "ask d", number, " audit");
}

fn put_new(sheet: &mut Sheet, list: &mut List, number: u32, is_authorised: bool) {
    if !list.begins(sheet, Level::Open) {
        return;
    }
    put_device(sheet, number);
    sheet.put_own(": not yet in service</b> It still needs ");
    if is_authorised {
        sheet.put_own("its first inspection.");
        return put_line(sheet, "ask d", number, " audit");
    }
    sheet.put_own("to be enrolled and inspected.");
    put_line(sheet, "ask d", number, " enrol CUSTOMER");
}

// Puts what is to be done for the phase of a device.
fn put_phase(sheet: &mut Sheet, list: &mut List, device: &DeviceStanding) {
    match device.phase {
        Phase::Locked => put_overdue(sheet, list, device),
        Phase::InService => put_due(sheet, list, device),
        Phase::Manufactured => put_new(sheet, list, device.device.get(), false),
        Phase::Authorised => put_new(sheet, list, device.device.get(), true),
        Phase::Blank | Phase::Withdrawn => {}
    }
}

/// The word for what a device asks for.
pub fn kind_name(kind: Kind) -> &'static str {
    match kind {
        Kind::Enrol => "enrolment",
        Kind::Reset => "reset",
        Kind::Audit => "inspection",
        Kind::Refund => "refund",
        Kind::Withdraw => "withdrawal",
    }
}

fn put_asked(sheet: &mut Sheet, asked: Option<DayNo>) {
    if let Some(day) = asked {
        sheet.put_own(" Asked on ");
        put_date_words(sheet, i64::from(day.get()));
        sheet.put_own(".");
    }
}

// Puts a request that the device has out.
fn put_pending(sheet: &mut Sheet, list: &mut List, device: &DeviceStanding, kind: Kind) {
    if !list.begins(sheet, Level::Soon) {
        return;
    }
    let number = device.device.get();
    put_device(sheet, number);
    sheet.put_own(": ");
    sheet.put_own(kind_name(kind));
    if device.flight == Some(kind) && device.amount > 0 {
        sheet.put_own(" of ");
        sheet.put_mills(device.amount as i128);
        sheet.put_own(
            " in flight</b> The centre has granted it, and the device has not applied it.",
        );
        put_asked(sheet, device.asked);
        if kind != Kind::Reset {
            sheet.put_own(" The device is frozen until then.");
        }
    } else {
        sheet.put_own(" requested</b> Its reply was not applied.");
        put_asked(sheet, device.asked);
    }
    put_line(sheet, "resend d", number, "");
}

// Puts a request that the device has applied, of which the centre has not been page.
fn put_unsettled(sheet: &mut Sheet, list: &mut List, device: &DeviceStanding, kind: Kind) {
    if !list.begins(sheet, Level::Open) {
        return;
    }
    let number = device.device.get();
    put_device(sheet, number);
    sheet.put_own(": ");
    sheet.put_own(kind_name(kind));
    sheet.put_own(" of ");
    sheet.put_mills(device.amount as i128);
    sheet.put_own(" not settled</b> The device has applied it; the centre has not been page.");
    put_line(sheet, "ack d", number, "");
}

// Puts what a device and the centre have between them.
fn put_between(sheet: &mut Sheet, list: &mut List, device: &DeviceStanding) {
    if let Some(kind) = device.pending {
        return put_pending(sheet, list, device, kind);
    }
    if let Some(kind) = device.flight {
        put_unsettled(sheet, list, device, kind);
    }
}

// What the device franked in the last days, in mills.
fn pace_of(page: &PageContent<'_>, device: &DeviceStanding, today: i64) -> u64 {
    let mut spent = 0u64;
    for cell in page.facts.cells.of(device_slot(device.device)).iter() {
        if i64::from(cell.day) > today.saturating_sub(PACE as i64) {
            spent = spent.saturating_add(cell.franked);
        }
    }
    spent
}

// Puts that little is left.
fn put_left(sheet: &mut Sheet, list: &mut List, page: &PageContent<'_>, device: &DeviceStanding) {
    let (Phase::InService | Phase::Locked) = device.phase else {
        return;
    };
    let spent = pace_of(page, device, list.today);
    let reach = device.descending.saturating_mul(PACE);
    if spent == 0 || reach >= spent.saturating_mul(WARNED as u64) {
        return;
    }
    if !list.begins(sheet, Level::Soon) {
        return;
    }
    let number = device.device.get();
    put_device(sheet, number);
    sheet.put_own(": ");
    sheet.put_mills(device.descending as i128);
    sheet.put_own(" left</b> At the pace of the last 28 days it lasts ");
    put_reach(sheet, reach / spent);
    put_line(sheet, "ask d", number, " reset AMOUNT");
}

// Puts how long something lasts.
fn put_reach(sheet: &mut Sheet, days: u64) {
    if days == 0 {
        return sheet.put_own("less than a day.");
    }
    sheet.put_own("some ");
    many(sheet, days, "day", "days");
    sheet.put_own(".");
}

// Puts which job it is.
fn put_job_name(sheet: &mut Sheet, number: u32, job: &Job) {
    sheet.put_own("job ");
    sheet.put_number(number as u64);
    sheet.put_own(": d");
    sheet.put_number(job.device.get() as u64);
    sheet.put_own(" piece ");
    sheet.put_number(job.piece as u64);
    sheet.put_own(", ");
    sheet.put_mills(job.postage as i128);
    sheet.put_own("</b> ");
}

// Puts a job that blocks the host, or will.
fn put_old_job(sheet: &mut Sheet, list: &mut List, number: u32, job: &Job, age: u64) {
    let level = if age >= CELLS {
        Level::Now
    } else {
        Level::Soon
    };
    if !list.begins(sheet, level) {
        return;
    }
    put_job_name(sheet, number, job);
    if age >= CELLS {
        sheet.put_own("It is still open, and blocks the host: no job can be ordered.");
    } else {
        sheet.put_own("It is still open, and blocks the host in ");
        many(sheet, CELLS - age, "more job", "more jobs");
        sheet.put_own(".");
    }
    if let JobState::Held = job.state {
        sheet.put_own(" Its mark is paid and not printed.");
        return put_line(sheet, "print ", number, "");
    }
    put_line(sheet, "close ", number, "");
}

// What is to be done with a job that is not closed: how soon, why, and the line to type.
fn work_of(job: &Job) -> (Level, &'static str, &'static str) {
    match job.state {
        JobState::Held => (
            Level::Soon,
            "Its mark is paid and waits for the printer.",
            "print ",
        ),
        JobState::Begun if job.printed => (Level::Open, "It is printed, and not closed.", "close "),
        JobState::Begun => (
            Level::Now,
            "Its print was begun and not confirmed: the mark may be on paper or not. Never print it again.",
            "close ",
        ),
        JobState::Ordered | JobState::Closed => {
            (Level::Open, "It is ordered, and has no mark yet.", "send ")
        }
    }
}

// Puts a job that is not closed; the host has ordered so many jobs.
fn put_job(sheet: &mut Sheet, list: &mut List, number: u32, job: &Job, ordered: u64) {
    if let JobState::Closed = job.state {
        return;
    }
    let age = ordered.saturating_add(1).saturating_sub(number as u64);
    if age >= WARNED_CELLS {
        return put_old_job(sheet, list, number, job, age);
    }
    let (level, text, line) = work_of(job);
    if list.begins(sheet, level) {
        put_job_name(sheet, number, job);
        sheet.put_own(text);
        put_line(sheet, line, number, "");
    }
}

fn put_jobs(sheet: &mut Sheet, list: &mut List, page: &PageContent<'_>) {
    for at in 0..page.jobs.len() {
        let number = u32::try_from(at.saturating_add(1)).unwrap_or(u32::MAX);
        put_job(
            sheet,
            list,
            number,
            &page.jobs[at],
            page.standing.counts.ordered,
        );
    }
}

fn put_customers(sheet: &mut Sheet, list: &mut List, page: &PageContent<'_>) {
    for customer in page.standing.customers.iter() {
        if customer.is_suspended && list.begins(sheet, Level::Open) {
            let number = customer.customer.get();
            sheet.put_own("customer ");
            sheet.put_number(number as u64);
            sheet.put_own(": suspended</b> Its devices get no reset.");
            put_line(sheet, "resume ", number, "");
        }
    }
}

/// Puts the name of a node.
pub fn put_node(sheet: &mut Sheet, node: Node) {
    match node {
        Node::Device(device) => put_device(sheet, device.get()),
        Node::Centre => sheet.put_own("centre"),
        Node::Host => sheet.put_own("host"),
        Node::Verifier => sheet.put_own("verifier"),
    }
}

fn put_nodes(sheet: &mut Sheet, list: &mut List, page: &PageContent<'_>) {
    for standing in page.standing.nodes.iter() {
        if standing.is_open && list.begins(sheet, Level::Now) {
            put_node(sheet, standing.node);
            sheet.put_own(
                ": a commit is open</b> Its answer is missing. The next start shows whether it counts.</div><code>on ",
            );
            put_node(sheet, standing.node);
            sheet.put_own("</code></li>");
        }
    }
}

// Puts all items of the level of the list.
fn put_items(sheet: &mut Sheet, list: &mut List, page: &PageContent<'_>) {
    for device in page.standing.devices.iter() {
        put_phase(sheet, list, device);
        put_between(sheet, list, device);
        put_left(sheet, list, page, device);
    }
    put_jobs(sheet, list, page);
    put_customers(sheet, list, page);
    put_nodes(sheet, list, page);
}

/// Puts what is to be done, as of the last day. Nothing without one.
pub fn put_todo(sheet: &mut Sheet, page: &PageContent<'_>) {
    let Some((_, last)) = page.standing.days else {
        return;
    };
    let today = i64::from(last.get());
    sheet.put_own("<section id=\"needs\"><h2>To do <small>as of ");
    put_dated(sheet, today);
    sheet.put_own(", the last day in these runs</small></h2>");
    let mut list = List {
        level: Level::Now,
        today,
        count: 0,
    };
    for level in [Level::Now, Level::Soon, Level::Open] {
        list.level = level;
        put_items(sheet, &mut list, page);
    }
    if list.count == 0 {
        sheet.put_own(
            "<p class=\"none\">Nothing waits: no inspection within 14 days, no request out, no open job.</p>",
        );
    } else {
        sheet.put_own("</ul>");
        put_more(sheet, list.count, MOST_ROWS, "open jobs and notes");
    }
    sheet.put_own("</section>\n");
}

// Puts a date in words that a program can read.
fn put_dated(sheet: &mut Sheet, day: i64) {
    sheet.put_own("<time datetime=\"");
    put_date(sheet, day);
    sheet.put_own("\">");
    put_date_words(sheet, day);
    sheet.put_own("</time>");
}
