//! The page and its style, the die, and the scale bar below it.

ghost use Rattle.std.specs.Prelude.{◌*◌, ◌-◌, ◌^◌, ◌≤◌, pos, ◌≤ℤ◌, All};
ghost use Rattle.std.specs.List.{flat_map};
ghost use Rattle.cts_instance.specs.Validity.{IsBlock, IsDie};
ghost use Rattle.cts_io.specs.Text.{Puts};
ghost use Rattle.cts_picture.specs.Drawable.{IsOutline};
ghost use Rattle.cts_picture.specs.Frame.{IsFrame, drawn};
ghost use Rattle.cts_picture.specs.Sheet.{bar_text, block_text, die_text, fill_words, frame_text, hatch_text, page_text, rectangle, style_text};

use crate::frame::{Frame, drawn};
use crate::words::{put_coordinate, put_whole};
use cts_block::Block;
use cts_io::{ByteSink, SinkBuffer};

// The colours of the eight classes of delay, from light to dark.
const COLOURS: &[u8] =
    b"path{fill:none;stroke:currentColor}.d0{color:#fdae32}.d1{color:#f58c46}.d2{color:#e66c5c}.d3{color:#cc4778}.d4{color:#aa2395}.d5{color:#7e03a8}.d6{color:#4c02a1}.d7{color:#0d0887}.b,.s{pointer-events:none}.s{stroke-linecap:round}";

/// The colours, the widths and the dashes of wires, of which the thinnest is `stroke` wide.
fn put_style<K: ByteSink>(out: &mut SinkBuffer, sink: &mut K, stroke: u64)
    requires { stroke ≤ 10 ^ 10 }
    ensures { Puts K.ByteSink (sink.old, out.old) (sink.new, out.new) (style_text stroke) }
{
    out.put(sink, b"<style>");
    out.put(sink, COLOURS);
    put_coordinate(out, sink, b".d0,.d1{stroke-width:", 4 * stroke);
    put_coordinate(out, sink, b"}.d2,.d3{stroke-width:", 3 * stroke);
    put_coordinate(out, sink, b"}.d4,.d5{stroke-width:", 2 * stroke);
    put_coordinate(out, sink, b"}.l{stroke-dasharray:", 4 * stroke);
    put_coordinate(out, sink, b",", 2 * stroke);
    out.put(sink, b"}</style>\n");
}

/// The head of the page, which has room for the legend below the picture.
pub fn put_page<K: ByteSink>(out: &mut SinkBuffer, sink: &mut K, frame: &Frame)
    requires { IsFrame frame.now }
    ensures { Puts K.ByteSink (sink.old, out.old) (sink.new, out.new) (page_text frame.now) }
{
    let height = frame.height_on_page() + 240;
    put_whole(
        out,
        sink,
        b"<svg xmlns='http://www.w3.org/2000/svg' viewBox='0 0 1000 ",
        height,
    );
    out.put(
        sink,
        b"' font-family='sans-serif' font-size='20'>\n<title>Clock tree</title>\n",
    );
    put_style(out, sink, frame.stroke);
    put_whole(out, sink, b"<rect width='1000' height='", height);
    out.put(sink, b"' fill='#fff'/>\n");
}

/// The hatch of blocks that keep out buffers alone.
fn put_hatch<K: ByteSink>(out: &mut SinkBuffer, sink: &mut K, line: u64)
    requires { line ≤ 10 ^ 8 }
    ensures { Puts K.ByteSink (sink.old, out.old) (sink.new, out.new) (hatch_text line) }
{
    put_coordinate(
        out,
        sink,
        b"<pattern id='h' patternUnits='userSpaceOnUse' patternTransform='rotate(45)' viewBox='0 0 5 5' width='",
        5 * line,
    );
    put_coordinate(out, sink, b"' height='", 5 * line);
    out.put(
        sink,
        b"'><rect width='5' height='5' fill='#f2f2f2'/><rect width='1' height='5' fill='#999'/></pattern>\n",
    );
}

/// The frame, in which points have the coordinates of the report.
pub fn put_frame<K: ByteSink>(out: &mut SinkBuffer, sink: &mut K, frame: &Frame)
    requires { IsFrame frame.now }
    ensures { Puts K.ByteSink (sink.old, out.old) (sink.new, out.new) (frame_text frame.now) }
{
    put_whole(
        out,
        sink,
        b"<svg width='1000' height='",
        frame.height_on_page(),
    );
    put_coordinate(out, sink, b"' viewBox='0 0 ", frame.width());
    put_coordinate(out, sink, b" ", frame.height());
    out.put(sink, b"'>\n");
    put_hatch(out, sink, frame.line);
    let margin = frame.margin();
    put_coordinate(out, sink, b"<g transform='translate(", margin);
    put_coordinate(out, sink, b" ", margin);
    put_coordinate(out, sink, b") scale(1 -1) translate(-", frame.x1);
    put_coordinate(out, sink, b" -", frame.y2);
    put_coordinate(out, sink, b")' stroke-width='", frame.stroke);
    out.put(sink, b"'>\n");
}

/// A rectangle from its lower left corner on, up to what it is filled with.
#[tactic(auto, unfolding(crate::specs::Sheet::rectangle))]
fn put_rectangle<K: ByteSink>(
    out: &mut SinkBuffer,
    sink: &mut K,
    x: u64,
    y: u64,
    width: u64,
    height: u64,
)
    ensures { Puts K.ByteSink (sink.old, out.old) (sink.new, out.new) (rectangle x y width height) }
{
    put_coordinate(out, sink, b"<rect x='", x);
    put_coordinate(out, sink, b"' y='", y);
    put_coordinate(out, sink, b"' width='", width);
    put_coordinate(out, sink, b"' height='", height);
}

/// The outline of the die.
#[tactic(auto, unfolding(crate::specs::Sheet::die_text))]
pub fn put_die<K: ByteSink>(out: &mut SinkBuffer, sink: &mut K, frame: &Frame)
    requires { IsFrame frame.now }
    ensures { Puts K.ByteSink (sink.old, out.old) (sink.new, out.new) (die_text frame.now) }
{
    let width = frame.x2 - frame.x1;
    let height = frame.y2 - frame.y1;
    put_rectangle(out, sink, frame.x1, frame.y1, width, height);
    put_coordinate(
        out,
        sink,
        b"' fill='none' stroke='#000' stroke-width='",
        frame.line,
    );
    out.put(sink, b"'/>\n");
}

/// The outline of a block, up to what it is filled with.
pub fn put_outline<K: ByteSink>(out: &mut SinkBuffer, sink: &mut K, block: Block)
    requires { IsOutline block.x1 block.y1 block.x2 block.y2 }
    ensures { Puts K.ByteSink (sink.old, out.old) (sink.new, out.new)
        (rectangle (drawn block.x1) (drawn block.y1) (drawn block.x2 - drawn block.x1) (drawn block.y2 - drawn block.y1)) }
{
    let x = drawn(block.x1);
    let y = drawn(block.y1);
    let width = drawn(block.x2) - x;
    let height = drawn(block.y2) - y;
    put_rectangle(out, sink, x, y, width, height);
}

/// The scale bar.
pub fn put_bar<K: ByteSink>(out: &mut SinkBuffer, sink: &mut K, frame: &Frame)
    requires { IsFrame frame.now }
    ensures { Puts K.ByteSink (sink.old, out.old) (sink.new, out.new) (bar_text frame.now) }
{
    put_coordinate(out, sink, b"<path d='M ", frame.x1);
    put_coordinate(out, sink, b" ", frame.y1);
    put_coordinate(out, sink, b"h", frame.bar);
    put_coordinate(out, sink, b"' transform='translate(0 -", 12 * frame.line);
    put_coordinate(out, sink, b")' stroke-width='", 2 * frame.line);
    out.put(sink, b"'/>\n");
}
