//! From the shapes of a chart to its text.

ghost use Rattle.std.specs.Prelude.{◌≡◌, ◌++◌, ℕ, List, IfOk, OnOk};
ghost use Rattle.std.specs.List.{flat_map};
ghost use Rattle.sig_svg.specs.Svg.{
  line_text,
  titled,
  name_text,
  pid_text,
  state_text,
  lane_text,
  row_text,
  sign_of,
  label_y,
  event_title,
  sign_text,
  label_text,
  mark_text,
  about_text,
  start_text,
  way_text,
  word_text,
  arrow_text,
  queued_title,
  stub_start_text,
  stub_way_text,
  whom_side,
  whom_x,
  whom_at,
  whom_text,
  stub_text,
  head_text,
  foot_text,
  chart_text,
};

use crate::escaping::put_escaped;
use crate::markup::Markup;
use crate::places::{bend_x, lane_x, row_y, start_y, toward};
use crate::putting::{put, put_at, put_short};
use crate::shape::{Arrow, Chart, Lane, Mark, Stub};
use std::alloc::{AllocError, Global};

/// The most bytes of an event's text.
const EVENT_BYTES: usize = 40;

/// The most bytes of a process's name and of its state.
const LANE_BYTES: usize = 20;

/// How wide the legend is, with what is left beside it.
const LEGEND_WIDTH: u64 = 760;

/// The line of a lane.
fn put_line(into: &mut Vec<u8>, rows: u32, pid: u32) -> Result<(), AllocError>
    ensures { OnOk result (into.new.items ≡ into.old.items ++ line_text rows pid) }
{
    put_at(into, Markup::LaneX, lane_x(pid))?;
    put_at(into, Markup::X2, lane_x(pid))?;
    put_at(into, Markup::Y2, row_y(rows))?;
    put(into, Markup::Close)
}

/// The beginning of a group with this title.
fn put_titled(into: &mut Vec<u8>, bytes: &[u8]) -> Result<(), AllocError>
    ensures { OnOk result (into.new.items ≡ into.old.items ++ titled bytes.now) }
{
    put(into, Markup::Title)?;
    put_escaped(into, bytes)?;
    put(into, Markup::TitleEnd)
}

/// The name above a lane.
fn put_name(into: &mut Vec<u8>, pid: u32, name: &[u8]) -> Result<(), AllocError>
    ensures { OnOk result (into.new.items ≡ into.old.items ++ name_text pid name.now) }
{
    put_titled(into, name)?;
    put_at(into, Markup::NameX, lane_x(pid))?;
    put(into, Markup::Body)?;
    put_short(into, LANE_BYTES, name)?;
    put(into, Markup::TextEnd)?;
    put(into, Markup::GroupEnd)
}

/// The pid above a lane.
fn put_pid(into: &mut Vec<u8>, pid: u32) -> Result<(), AllocError>
    ensures { OnOk result (into.new.items ≡ into.old.items ++ pid_text pid) }
{
    put_at(into, Markup::PidX, lane_x(pid))?;
    put(into, Markup::Body)?;
    put_at(into, Markup::Less, u64::from(pid))?;
    put(into, Markup::Greater)?;
    put(into, Markup::TextEnd)
}

/// The state below a lane.
fn put_state(into: &mut Vec<u8>, rows: u32, pid: u32, state: &[u8]) -> Result<(), AllocError>
    ensures { OnOk result (into.new.items ≡ into.old.items ++ state_text rows pid state.now) }
{
    put_titled(into, state)?;
    put_at(into, Markup::MiddleX, lane_x(pid))?;
    put_at(into, Markup::Y, row_y(rows) + 16)?;
    put(into, Markup::Body)?;
    put_short(into, LANE_BYTES, state)?;
    put(into, Markup::TextEnd)?;
    put(into, Markup::GroupEnd)
}

/// A lane.
fn put_lane(into: &mut Vec<u8>, rows: u32, lane: &Lane) -> Result<(), AllocError>
    ensures { OnOk result (into.new.items ≡ into.old.items ++ lane_text rows lane.now) }
{
    put_line(into, rows, lane.pid)?;
    put_name(into, lane.pid, lane.name.as_slice())?;
    put_pid(into, lane.pid)?;
    put_state(into, rows, lane.pid, lane.state.as_slice())
}

/// The line through a row, with its stamp.
fn put_row(into: &mut Vec<u8>, mark: &Mark) -> Result<(), AllocError>
    ensures { OnOk result (into.new.items ≡ into.old.items ++ row_text mark.now) }
{
    let y = row_y(mark.row);
    put_at(into, Markup::RowY, y)?;
    put_at(into, Markup::Y2, y)?;
    put(into, Markup::Close)?;
    put_at(into, Markup::StampY, y + 4)?;
    put_at(into, Markup::Body, mark.stamp)?;
    put(into, Markup::TextEnd)
}

fn sign_of(handled: bool) -> Markup
    ensures { result ≡ sign_of handled }
{
    if handled {
        Markup::HandledX
    } else {
        Markup::ExecutedX
    }
}

/// How far down an event's text stands.
fn label_y(handled: bool, row: u32) -> u64
    ensures { result ≡ label_y handled row }
{
    if handled {
        row_y(row) + 15
    } else {
        row_y(row) - 6
    }
}

/// The beginning of a group with an event's whole text as the title.
fn put_event_title(into: &mut Vec<u8>, mark: &Mark) -> Result<(), AllocError>
    ensures { OnOk result (into.new.items ≡ into.old.items ++ event_title mark.now) }
{
    put_at(into, Markup::Title, mark.stamp)?;
    put(into, Markup::Space)?;
    put_escaped(into, mark.text.as_slice())?;
    put(into, Markup::TitleEnd)
}

/// The sign of an event.
fn put_sign(into: &mut Vec<u8>, mark: &Mark) -> Result<(), AllocError>
    ensures { OnOk result (into.new.items ≡ into.old.items ++ sign_text mark.now) }
{
    put_at(into, sign_of(mark.handled), lane_x(mark.pid))?;
    put_at(into, Markup::Y, row_y(mark.row))?;
    put(into, Markup::Close)
}

/// The text beside an event.
fn put_label(into: &mut Vec<u8>, mark: &Mark) -> Result<(), AllocError>
    ensures { OnOk result (into.new.items ≡ into.old.items ++ label_text mark.now) }
{
    put_at(into, Markup::LabelX, lane_x(mark.pid) + 8)?;
    put_at(into, Markup::Y, label_y(mark.handled, mark.row))?;
    put(into, Markup::Body)?;
    put_short(into, EVENT_BYTES, mark.text.as_slice())?;
    put(into, Markup::TextEnd)?;
    put(into, Markup::GroupEnd)
}

/// An event.
fn put_mark(into: &mut Vec<u8>, mark: &Mark) -> Result<(), AllocError>
    ensures { OnOk result (into.new.items ≡ into.old.items ++ mark_text mark.now) }
{
    put_event_title(into, mark)?;
    put_sign(into, mark)?;
    put_label(into, mark)
}

/// What an arrow is, as a title.
fn put_about(into: &mut Vec<u8>, arrow: &Arrow) -> Result<(), AllocError>
    ensures { OnOk result (into.new.items ≡ into.old.items ++ about_text arrow.now) }
{
    put(into, Markup::Title)?;
    put(into, Markup::Class { sort: arrow.sort })?;
    put_at(into, Markup::Space, arrow.number)?;
    put_at(into, Markup::Sender, u64::from(arrow.from))?;
    put_at(into, Markup::Receiver, u64::from(arrow.to))?;
    put(into, Markup::TitleEnd)
}

/// The stroke of an arrow, up to where it begins.
fn put_start(into: &mut Vec<u8>, arrow: &Arrow) -> Result<(), AllocError>
    ensures { OnOk result (into.new.items ≡ into.old.items ++ start_text arrow.now) }
{
    put(into, Markup::ArrowClass)?;
    put(into, Markup::Class { sort: arrow.sort })?;
    put_at(into, Markup::From, lane_x(arrow.from))?;
    put_at(into, Markup::Space, start_y(arrow.start))
}

/// Where it bends and ends.
fn put_way(into: &mut Vec<u8>, arrow: &Arrow) -> Result<(), AllocError>
    ensures { OnOk result (into.new.items ≡ into.old.items ++ way_text arrow.now) }
{
    let top = start_y(arrow.start);
    let bottom = row_y(arrow.end);
    put_at(into, Markup::Bend, bend_x(arrow.from, arrow.to))?;
    put_at(into, Markup::Space, (top + bottom) / 2)?;
    put_at(into, Markup::Space, lane_x(arrow.to))?;
    put_at(into, Markup::Space, bottom)?;
    put(into, Markup::Close)
}

/// The word before an arrow's end.
fn put_word(into: &mut Vec<u8>, arrow: &Arrow) -> Result<(), AllocError>
    ensures { OnOk result (into.new.items ≡ into.old.items ++ word_text arrow.now) }
{
    put_at(into, Markup::WordX, lane_x(arrow.to) - 10)?;
    put_at(into, Markup::Y, row_y(arrow.end) + 15)?;
    put(into, Markup::Body)?;
    put(into, Markup::Word { sort: arrow.sort })?;
    put(into, Markup::TextEnd)?;
    put(into, Markup::GroupEnd)
}

/// A signal that was handled.
fn put_arrow(into: &mut Vec<u8>, arrow: &Arrow) -> Result<(), AllocError>
    ensures { OnOk result (into.new.items ≡ into.old.items ++ arrow_text arrow.now) }
{
    put_about(into, arrow)?;
    put_start(into, arrow)?;
    put_way(into, arrow)?;
    put_word(into, arrow)
}

/// The beginning of a group with what a queued signal says as the title.
fn put_queued_title(into: &mut Vec<u8>, bytes: &[u8]) -> Result<(), AllocError>
    ensures { OnOk result (into.new.items ≡ into.old.items ++ queued_title bytes.now) }
{
    put(into, Markup::QueuedTitle)?;
    put_escaped(into, bytes)?;
    put(into, Markup::TitleEnd)
}

/// The stroke of a queued signal, up to where it begins.
fn put_stub_start(into: &mut Vec<u8>, stub: &Stub) -> Result<(), AllocError>
    ensures { OnOk result (into.new.items ≡ into.old.items ++ stub_start_text stub.now) }
{
    put(into, Markup::QueuedClass)?;
    put(into, Markup::Class { sort: stub.sort })?;
    put_at(into, Markup::From, lane_x(stub.from))?;
    put_at(into, Markup::Space, row_y(stub.start))
}

/// Where it ends.
fn put_stub_way(into: &mut Vec<u8>, stub: &Stub) -> Result<(), AllocError>
    ensures { OnOk result (into.new.items ≡ into.old.items ++ stub_way_text stub.now) }
{
    put_at(into, Markup::Line, toward(stub.from, stub.to))?;
    put_at(into, Markup::Space, row_y(stub.start) + 18)?;
    put(into, Markup::Close)
}

fn whom_side(from: u32, to: u32) -> Markup
    ensures { result ≡ whom_side from to }
{
    if from < to {
        Markup::LabelX
    } else {
        Markup::WordX
    }
}

/// Before the ring or behind it.
fn whom_x(from: u32, to: u32) -> u64
    ensures { result ≡ whom_x from to }
{
    if from < to {
        toward(from, to) + 8
    } else {
        toward(from, to) - 8
    }
}

/// Where its text stands.
fn put_whom_at(into: &mut Vec<u8>, stub: &Stub) -> Result<(), AllocError>
    ensures { OnOk result (into.new.items ≡ into.old.items ++ whom_at stub.now) }
{
    put_at(
        into,
        whom_side(stub.from, stub.to),
        whom_x(stub.from, stub.to),
    )?;
    put_at(into, Markup::Y, row_y(stub.start) + 22)?;
    put(into, Markup::Body)
}

/// What a queued signal is, and for whom.
fn put_whom(into: &mut Vec<u8>, stub: &Stub) -> Result<(), AllocError>
    ensures { OnOk result (into.new.items ≡ into.old.items ++ whom_text stub.now) }
{
    put(into, Markup::Word { sort: stub.sort })?;
    put_at(into, Markup::Receiver, u64::from(stub.to))?;
    put(into, Markup::TextEnd)?;
    put(into, Markup::GroupEnd)
}

/// A signal that is queued.
fn put_stub(into: &mut Vec<u8>, stub: &Stub) -> Result<(), AllocError>
    ensures { OnOk result (into.new.items ≡ into.old.items ++ stub_text stub.now) }
{
    put_queued_title(into, stub.text.as_slice())?;
    put_stub_start(into, stub)?;
    put_stub_way(into, stub)?;
    put_whom_at(into, stub)?;
    put_whom(into, stub)
}

fn put_head(into: &mut Vec<u8>, count: u32, rows: u32) -> Result<(), AllocError>
    ensures { OnOk result (into.new.items ≡ into.old.items ++ head_text count rows) }
{
    put_at(
        into,
        Markup::SvgWidth,
        (lane_x(count) + 250).max(LEGEND_WIDTH),
    )?;
    put_at(into, Markup::SvgHeight, row_y(rows) + 250)?;
    put(into, Markup::SvgHead)
}

fn put_foot(into: &mut Vec<u8>, rows: u32) -> Result<(), AllocError>
    ensures { OnOk result (into.new.items ≡ into.old.items ++ foot_text rows) }
{
    put_at(into, Markup::LegendAt, row_y(rows) + 50)?;
    put(into, Markup::Legend)?;
    put(into, Markup::SvgFoot)
}

fn put_rows(into: &mut Vec<u8>, marks: &[Mark]) -> Result<(), AllocError>
    ensures { OnOk result (into.new.items ≡ into.old.items ++ flat_map row_text marks.now) }
{
    for mark in marks {
        put_row(into, mark)?;
    }
    Ok(())
}

fn put_lanes(into: &mut Vec<u8>, rows: u32, lanes: &[Lane]) -> Result<(), AllocError>
    ensures { OnOk result (into.new.items ≡ into.old.items ++ flat_map (lane_text rows) lanes.now) }
{
    for lane in lanes {
        put_lane(into, rows, lane)?;
    }
    Ok(())
}

fn put_arrows(into: &mut Vec<u8>, arrows: &[Arrow]) -> Result<(), AllocError>
    ensures { OnOk result (into.new.items ≡ into.old.items ++ flat_map arrow_text arrows.now) }
{
    for arrow in arrows {
        put_arrow(into, arrow)?;
    }
    Ok(())
}

fn put_stubs(into: &mut Vec<u8>, stubs: &[Stub]) -> Result<(), AllocError>
    ensures { OnOk result (into.new.items ≡ into.old.items ++ flat_map stub_text stubs.now) }
{
    for stub in stubs {
        put_stub(into, stub)?;
    }
    Ok(())
}

fn put_marks(into: &mut Vec<u8>, marks: &[Mark]) -> Result<(), AllocError>
    ensures { OnOk result (into.new.items ≡ into.old.items ++ flat_map mark_text marks.now) }
{
    for mark in marks {
        put_mark(into, mark)?;
    }
    Ok(())
}

/// The text of a chart. The error is want of memory.
pub fn draw(alloc: Global, shapes: &Chart) -> Result<Vec<u8>, AllocError>
    ensures { IfOk result (λ text. text.items ≡ chart_text shapes.now) }
{
    let mut text = Vec::new(alloc);
    put_head(&mut text, shapes.count, shapes.rows)?;
    put_rows(&mut text, shapes.marks.as_slice())?;
    put_lanes(&mut text, shapes.rows, shapes.lanes.as_slice())?;
    put_arrows(&mut text, shapes.arrows.as_slice())?;
    put_stubs(&mut text, shapes.stubs.as_slice())?;
    put_marks(&mut text, shapes.marks.as_slice())?;
    put_foot(&mut text, shapes.rows)?;
    Ok(text)
}
