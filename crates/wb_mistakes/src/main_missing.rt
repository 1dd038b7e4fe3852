//! A script without `main`, the procedure with which a run begins.

use crate::further_lines::mark_line;
use crate::lines::Line;
use crate::near_names::nearest_item;
use crate::spaces::find_item;
use wb_pages::Page;
use wb_tree::script_lines::ItemKind;

/// Says that there is no `main`, and which procedure may be meant as `main`.
pub fn explain_no_main(page: &mut Page, lines: &[Line]) {
    page.write_file_text("the script has no procedure `main`");
    let near = nearest_item(lines, ItemKind::Procedure, b"main");
    match (find_item(lines, b"main"), near) {
        (Some(item), _) => mark_line(page, lines, item.line, "`main` is not a procedure"),
        (None, Some(near)) => {
            mark_line(
                page,
                lines,
                near.line.saturating_sub(1),
                "did you mean `main`?",
            );
        }
        (None, None) => {}
    }
    page.write_help_text("the run begins with `proc main`");
}
