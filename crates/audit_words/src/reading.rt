//! What the words of the auditor's program call for.
ghost use Rattle.std.specs.Prelude.{◌≡◌, ◌↔◌, ℕ, List, map, string_bytes, IfOk, IfErr, IsTrue};
ghost use Rattle.std.specs.List.{Contains};
ghost use Rattle.audit_words.specs.Calls as calls;
ghost use Rattle.audit_words.specs.Calls.{IsCheck, Reads};
ghost use Rattle.audit_words.specs.declared.reading.WordsFault.{WordsFault};

use std::alloc::Global;

/// What is printed beside the verdicts.
#[derive(Clone, Copy, Debug, PartialEq, Eq)]
pub enum Asked {
    Nothing,
    Table,
    Page,
    Html,
    Csv,
    Json,
    Ledger,
    Due,
}

/// A run, and the word that it is said to be a run of.
#[derive(Drop)]
pub struct NamedWord {
    /// The run, without the ending of its script.
    pub name: String,
    pub word: String,
}

/// What the words of an audit ask for.
#[derive(Drop)]
pub struct Words {
    /// The folder with the runs that come before those that are named.
    pub folder: Option<String>,
    /// The file of the rates of every run; None if each has its own.
    pub rates: Option<String>,
    /// The file of the prints of all runs.
    pub prints: Option<String>,
    /// The file of the marks that were seen on mail.
    pub seen: Option<String>,
    /// The folder whose storages are compared with what the runs left.
    pub storages: Option<String>,
    /// The folder whose storages the runs begin with; None if those are blank.
    pub start: Option<String>,
    pub asked: Asked,
    /// Whether what is undecided at the end counts as decided.
    pub is_lenient: bool,
    /// The words of single runs, in place of those that are kept beside them.
    pub run_words: Vec<NamedWord>,
    /// The runs that are named, each without the ending of its script.
    pub names: Vec<String>,
}

/// What the program is called for.
#[derive(Drop)]
pub enum Call {
    /// Runs are judged.
    Audit(Words),
    /// The script in this file is looked at.
    Check(String),
    Help,
    Version,
}

/// Why words call for nothing.
#[derive(Clone, Copy, Debug, Drop, PartialEq, Eq)]
pub enum WordsFault {
    /// They are the words of no call.
    Usage,
    /// They ask for a start from storages, and for what is counted from blank storages.
    Start,
    /// There is no memory.
    Memory,
}

/// What a word that names a file is for.
#[derive(Clone, Copy)]
enum Operand {
    Folder,
    Rates,
    Prints,
    Seen,
    Storages,
    Start,
    /// The run whose word follows.
    Run,
    RunWord,
}

/// What was read so far.
#[derive(Drop)]
struct Reader {
    alloc: Global,
    words: Words,
    /// What the next word is for, if the last one asks for it.
    wanted: Option<Operand>,
    /// The run whose word is the next one.
    run: Option<String>,
}

// What the word asks to be printed, if it is such an option.
fn asked_by(word: &str) -> Option<Asked> {
    match word {
        "--table" => Some(Asked::Table),
        "--page" => Some(Asked::Page),
        "--html" => Some(Asked::Html),
        "--csv" => Some(Asked::Csv),
        "--json" => Some(Asked::Json),
        "--ledger" => Some(Asked::Ledger),
        "--due" => Some(Asked::Due),
        _ => None,
    }
}

// What the word after this one is for, if this is an option that asks for one.
fn operand_of(word: &str) -> Option<Operand> {
    match word {
        "--runs" => Some(Operand::Folder),
        "--rates" => Some(Operand::Rates),
        "--prints" => Some(Operand::Prints),
        "--seen" => Some(Operand::Seen),
        "--folder" => Some(Operand::Storages),
        "--from" => Some(Operand::Start),
        "--word" => Some(Operand::Run),
        _ => None,
    }
}

// Fills what was not given before.
fn fill(place: &mut Option<String>, word: String) -> Result<(), WordsFault> {
    if place.is_some() {
        return Err(WordsFault::Usage);
    }
    *place = Some(word);
    Ok(())
}

// Whether what is asked for is counted from blank storages.
fn counts_from_blank(words: &Words) -> bool {
    match words.asked {
        Asked::Nothing | Asked::Table | Asked::Due => words.seen.is_some(),
        Asked::Page | Asked::Html | Asked::Csv | Asked::Json | Asked::Ledger => true,
    }
}

fn is_option(word: &str) -> bool
    ensures { result ≡ calls.is_option word.now }
{
    word.as_bytes().starts_with(b"--")
}

// The name of the run, which may be given by its script.
fn without_ending(alloc: Global, word: String) -> Result<String, WordsFault> {
    let Some(name) = word.as_str().strip_suffix(".script") else {
        return Ok(word);
    };
    match String::from_str(alloc, name) {
        Ok(name) => Ok(name),
        Err(_) => Err(WordsFault::Memory),
    }
}

// Whether the word of this run was given before.
fn has_run(run_words: &[NamedWord], name: &str) -> bool {
    for at in 0..run_words.len() {
        if run_words[at].name.as_str() == name {
            return true;
        }
    }
    false
}

impl Reader {
    // Takes the run whose word follows.
    fn take_run(&mut self, word: String) -> Result<(), WordsFault> {
        let name = without_ending(self.alloc, word)?;
        if has_run(self.words.run_words.as_slice(), name.as_str()) {
            return Err(WordsFault::Usage);
        }
        self.run = Some(name);
        self.wanted = Some(Operand::RunWord);
        Ok(())
    }

    // Takes the word of the run that was named.
    fn take_run_word(&mut self, word: String) -> Result<(), WordsFault> {
        let Some(name) = self.run.take() else {
            return Err(WordsFault::Usage);
        };
        match self.words.run_words.push(NamedWord { name, word }) {
            Ok(()) => Ok(()),
            Err(_) => Err(WordsFault::Memory),
        }
    }

    // Takes the word that an option asked for.
    fn take_operand(&mut self, operand: Operand, word: String) -> Result<(), WordsFault> {
        if is_option(word.as_str()) {
            return Err(WordsFault::Usage);
        }
        match operand {
            Operand::Folder => fill(&mut self.words.folder, word),
            Operand::Rates => fill(&mut self.words.rates, word),
            Operand::Prints => fill(&mut self.words.prints, word),
            Operand::Seen => fill(&mut self.words.seen, word),
            Operand::Storages => fill(&mut self.words.storages, word),
            Operand::Start => fill(&mut self.words.start, word),
            Operand::Run => self.take_run(word),
            Operand::RunWord => self.take_run_word(word),
        }
    }

    // Takes the name of a run.
    fn take_name(&mut self, word: String) -> Result<(), WordsFault> {
        let name = without_ending(self.alloc, word)?;
        match self.words.names.push(name) {
            Ok(()) => Ok(()),
            Err(_) => Err(WordsFault::Memory),
        }
    }

    // Takes an option.
    fn take_option(&mut self, word: &str) -> Result<(), WordsFault> {
        if let Some(operand) = operand_of(word) {
            self.wanted = Some(operand);
            return Ok(());
        }
        if word == "--lenient" {
            self.words.is_lenient = true;
            return Ok(());
        }
        let Some(asked) = asked_by(word) else {
            return Err(WordsFault::Usage);
        };
        if self.words.asked != Asked::Nothing {
            return Err(WordsFault::Usage);
        }
        self.words.asked = asked;
        Ok(())
    }

    // Takes the next word.
    fn take(&mut self, word: String) -> Result<(), WordsFault> {
        if let Some(operand) = self.wanted {
            self.wanted = None;
            return self.take_operand(operand, word);
        }
        if is_option(word.as_str()) {
            return self.take_option(word.as_str());
        }
        self.take_name(word)
    }

    // What was read, after the last word.
    fn end(self) -> Result<Words, WordsFault> {
        if self.wanted.is_some() {
            return Err(WordsFault::Usage);
        }
        if self.words.names.is_empty() && self.words.folder.is_none() {
            return Err(WordsFault::Usage);
        }
        if self.words.start.is_some() && counts_from_blank(&self.words) {
            return Err(WordsFault::Start);
        }
        Ok(self.words)
    }
}

// What words that ask for an audit ask for.
fn read_audit(alloc: Global, words: Vec<String>) -> Result<Words, WordsFault> {
    let mut reader = Reader {
        alloc,
        words: Words {
            folder: None,
            rates: None,
            prints: None,
            seen: None,
            storages: None,
            start: None,
            asked: Asked::Nothing,
            is_lenient: false,
            run_words: Vec::new(alloc),
            names: Vec::new(alloc),
        },
        wanted: None,
        run: None,
    };
    for word in words {
        reader.take(word)?;
    }
    reader.end()
}

fn is_word(word: &String, wanted: &str) -> bool
    ensures { IsTrue result ↔ (string_bytes word.now ≡ wanted.now) }
{
    word.as_str() == wanted
}

fn has_word(words: &[String], wanted: &str) -> bool
    ensures { IsTrue result ↔ Contains (map string_bytes words.now) wanted.now }
{
    for at in 0..words.len() {
        if is_word(&words[at], wanted) {
            return true;
        }
    }
    false
}

// Whether the words are those of a look at a script: `--check` and the script alone.
fn is_check(words: &[String]) -> bool
    ensures { IsTrue result ↔ ((script : List ℕ) × IsCheck (map string_bytes words.now) script) }
{
    match words {
        [word, script] => is_word(word, "--check") && !is_option(script.as_str()),
        _ => false,
    }
}

// What words that ask to look at a script ask for: the script alone.
fn read_check(words: Vec<String>) -> Result<String, WordsFault>
    ensures found { IfOk result (λ script. IsCheck (map string_bytes words.items) (string_bytes script)) }
    ensures none { IfErr result (λ fault. (fault ≡ WordsFault.Usage) × ((script : List ℕ) → IsCheck (map string_bytes words.items) script → ⊥)) }
{
    let mut words = words;
    if !is_check(words.as_slice()) {
        return Err(WordsFault::Usage);
    }
    match words.pop() {
        Some(script) => Ok(script),
        None => Err(WordsFault::Usage),
    }
}

/// What the words after the program's name call for. Options may be in any order, also after names; `--help` and `--version` take precedence over
/// all others. WordsFault::Usage if a word that begins with `--` is no option, or if an option lacks its file or is given twice. `--word` is
/// followed by a run and a word, and may be given once a run. WordsFault::Usage also if more than one thing is asked for beside the verdicts, if no run
/// is named, or if a script to be looked at is not alone. WordsFault::Start if `--from` goes with a page, a journal or marks that were seen.
/// WordsFault::Memory is lack of memory.
pub fn read_call(alloc: Global, words: Vec<String>) -> Result<Call, WordsFault>
    ensures { Reads (map string_bytes words.items) result }
{
    if has_word(words.as_slice(), "--help") {
        return Ok(Call::Help);
    }
    if has_word(words.as_slice(), "--version") {
        return Ok(Call::Version);
    }
    if has_word(words.as_slice(), "--check") {
        return match read_check(words) {
            Ok(script) => Ok(Call::Check(script)),
            Err(fault) => Err(fault),
        };
    }
    match read_audit(alloc, words) {
        Ok(asked) => Ok(Call::Audit(asked)),
        Err(fault) => Err(fault),
    }
}
