//! The first words of a script's lines.
ghost use Rattle.std.specs.Prelude.{◌≡◌, ◌≢◌, MatchOption};
ghost use Rattle.script_text.specs.Keywords.{keyword_word};
ghost use Rattle.script_text.specs.declared.keyword.Keyword.{Keyword};

/// The first word of a line.
#[derive(Clone, Copy)]
pub enum Keyword {
    Day,
    Rates,
    Make,
    On,
    Off,
    Cut,
    Debit,
    Ask,
    Resend,
    Ack,
    Status,
    Register,
    Customer,
    Deposit,
    Suspend,
    Resume,
    Balance,
    Deliver,
    Give,
    Order,
    Send,
    Print,
    Close,
    Trust,
    Scan,
    Reconcile,
    End,
}

/// The keyword of this word; None if and only if it is no keyword.
pub fn read_keyword(word: &[u8]) -> Option<Keyword>
    ensures read { MatchOption result ((k : Keyword) → word.now ≢ keyword_word k) (λ k. word.now ≡ keyword_word k) }
{
    // What most lines begin with stands first: the words are looked at in turn.
    match word {
        b"debit" => Some(Keyword::Debit),
        b"day" => Some(Keyword::Day),
        b"order" => Some(Keyword::Order),
        b"send" => Some(Keyword::Send),
        b"print" => Some(Keyword::Print),
        b"scan" => Some(Keyword::Scan),
        b"deliver" => Some(Keyword::Deliver),
        b"cut" => Some(Keyword::Cut),
        b"on" => Some(Keyword::On),
        b"off" => Some(Keyword::Off),
        b"rates" => Some(Keyword::Rates),
        b"make" => Some(Keyword::Make),
        b"ask" => Some(Keyword::Ask),
        b"resend" => Some(Keyword::Resend),
        b"ack" => Some(Keyword::Ack),
        b"status" => Some(Keyword::Status),
        b"register" => Some(Keyword::Register),
        b"customer" => Some(Keyword::Customer),
        b"deposit" => Some(Keyword::Deposit),
        b"suspend" => Some(Keyword::Suspend),
        b"resume" => Some(Keyword::Resume),
        b"balance" => Some(Keyword::Balance),
        b"give" => Some(Keyword::Give),
        b"close" => Some(Keyword::Close),
        b"trust" => Some(Keyword::Trust),
        b"reconcile" => Some(Keyword::Reconcile),
        b"end" => Some(Keyword::End),
        _ => None,
    }
}
