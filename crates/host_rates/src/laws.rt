//! What holds of all texts and rates, as contracts of functions that do nothing.
ghost use Rattle.host_rates.specs.Laws.{KeptPrices, PricesByText, ReadsTheForm};

/// Each table of rates is read from its document, and what is read is such a table.
pub fn reads_the_form()
    ensures { ReadsTheForm }
{}

/// The tariff of texts: sizes and prices are those of a text's rates, and prices are from 1 to 100,000 mills. What is
/// kept of a text has the prices of the text.
pub fn prices_by_text()
    ensures tariff { PricesByText }
    ensures kept { KeptPrices }
{}
