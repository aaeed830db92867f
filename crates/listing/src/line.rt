// A line of the listing.
ghost use Rattle.std.specs.Prelude.{◌≡◌};
ghost use Rattle.programs.specs.Output.{Gathers};
ghost use Rattle.listing.specs.Listing.{name_of, event_line};

use comment_parser::{CommentItem, Placed};
use programs::Writer;

// The name of an event's kind.
fn name_of(item: CommentItem) -> &'static [u8]
    ensures { result.now ≡ name_of item }
{
    match item {
        CommentItem::Text(_) => b"Text",
        CommentItem::LineBreak(_) => b"LineBreak",
        CommentItem::StartMathMode(_) => b"StartMathMode",
        CommentItem::EndMathMode(_) => b"EndMathMode",
        CommentItem::MathToken(_) => b"MathToken",
        CommentItem::Label(_, _) => b"Label",
        CommentItem::Url(_, _) => b"Url",
        CommentItem::StartHtml(_) => b"StartHtml",
        CommentItem::EndHtml(_) => b"EndHtml",
        CommentItem::StartSubscript(_) => b"StartSubscript",
        CommentItem::EndSubscript(_) => b"EndSubscript",
        CommentItem::StartItalic(_) => b"StartItalic",
        CommentItem::EndItalic(_) => b"EndItalic",
        CommentItem::BibTag(_) => b"BibTag",
    }
}

// The line of an event: the name of its kind, its place, start and end, and the number of the line that its place lies in.
#[tactic(auto, unfolding(crate::specs::Listing::event_line))]
pub(crate) fn put_line(output: &mut Writer<'_>, item: CommentItem, line: usize)
    ensures { Gathers (event_line item line) output.old output.new }
{
    let Placed {
        kind: _,
        place,
        start,
        end,
    } = item.placed();
    let numbers = [place as u64, start as u64, end as u64, line as u64];
    output.line(name_of(item), &numbers);
}
