//! Pictures and the symbols in them.
use audit_sheet::Sheet;

/// Puts hundredths of a per cent, such as `43.21%`; at most 100.
pub fn put_hundredths(sheet: &mut Sheet, hundredths: u64) {
    let most = hundredths.min(10_000);
    sheet.put_number(most / 100);
    sheet.put_own(".");
    sheet.put_number(most % 100 / 10);
    sheet.put_number(most % 10);
    sheet.put_own("%");
}

// Puts a name that no other picture has.
fn put_id(sheet: &mut Sheet, name: &'static str, number: u64) {
    sheet.put_own(name);
    if number > 0 {
        sheet.put_number(number);
    }
    sheet.put_own("-t\">");
}

/// Begins a picture of this height, in pixels, up to the text of its title, which the caller ends.
pub fn begin_picture(
    sheet: &mut Sheet,
    class: &'static str,
    height: u64,
    name: &'static str,
    number: u64,
) {
    sheet.put_own("<svg class=\"");
    sheet.put_own(class);
    sheet.put_own("\" height=\"");
    sheet.put_number(height);
    sheet.put_own("\" role=\"img\" aria-labelledby=\"");
    put_id(sheet, name, number);
    sheet.put_own("<title id=\"");
    put_id(sheet, name, number);
}

/// Begins the curves of a picture, of so many cells.
pub fn begin_plot(sheet: &mut Sheet, cells: u64, height: u64) {
    sheet.put_own("<svg class=\"pl\" viewBox=\"0 0 ");
    sheet.put_number(cells);
    sheet.put_own(" 1000\" preserveAspectRatio=\"none\" width=\"100%\" height=\"");
    sheet.put_number(height);
    sheet.put_own("\" aria-hidden=\"true\">");
}

/// Puts a symbol as the key of a legend.
pub fn put_key(sheet: &mut Sheet, name: &'static str) {
    sheet.put_own("<svg class=\"ky\" aria-hidden=\"true\"><use href=\"#");
    sheet.put_own(name);
    sheet.put_own("\" x=\"7\"/></svg>");
}

/// Begins a symbol at this place, in hundredths of a per cent and pixels, up to the text of its title. `end_symbol` ends it.
pub fn put_symbol(sheet: &mut Sheet, name: &'static str, across: u64, down: &'static str) {
    sheet.put_own("<svg x=\"");
    put_hundredths(sheet, across);
    sheet.put_own("\" y=\"");
    sheet.put_own(down);
    sheet.put_own("\" class=\"mk\"><g class=\"m-");
    sheet.put_own(name);
    sheet.put_own("\"><title>");
}

/// Ends a symbol after the text of its title.
pub fn end_symbol(sheet: &mut Sheet, name: &'static str) {
    sheet.put_own("</title><use href=\"#");
    sheet.put_own(name);
    sheet.put_own("\"/></g></svg>");
}
