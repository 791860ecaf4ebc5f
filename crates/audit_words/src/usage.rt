//! What the auditor's program says of its words.

/// What `--version` prints.
pub const VERSION: &str = "meter_audit, edition 3 of the rules";

/// What `--help` prints.
pub const HELP: &str = "usage: meter_audit [OPTION ..] [--runs DIR] NAME ..
       meter_audit --check SCRIPT

Says of each run, in order, whether its report may be that of a lawful meter, up to the first finding. A run is NAME.script,
NAME.report and NAME.rates, which is empty if it is missing. NAME.word has its word: replay, which it is if that file is
missing, claims, departments or manifest. Give all runs of a folder, from the first one on; with --from, all that came
after those storages.
--check says what is wrong with the lines of a script.

options, in any order
  --runs DIR       each NAME.script of DIR, by name, before the NAMEs that are given
  --rates FILE     the rates of every run, in place of each NAME.rates
  --prints FILE    whether FILE, such as prints.txt, has the prints of these runs
  --seen FILE      whether these runs debited each mark of FILE, a line of 128 hexadecimal digits each
  --folder DIR     whether the storages of DIR show what these runs left
  --from DIR       begin with the storages of DIR, in place of blank ones
  --word NAME WORD the word of the run NAME, in place of what NAME.word has; may be given once a run
  --lenient        status 0 in place of 4
  --help           these lines
  --version        the version

at most one of
  --table          each device, customer and node after the runs
  --page           what the runs came to, each cut and fault, and the digest
  --html           the same as one page for a browser, also with a finding
  --csv, --json    the journal: a row for each commit
  --ledger         the journal as hledger reads it
  --due            the answers that were due at the end of the last run, which was stopped

statuses
  0  nothing was found                     3  memory ran out
  1  a finding                             4  nothing was found, but something is undecided
  2  bad words, or a file cannot be used";
