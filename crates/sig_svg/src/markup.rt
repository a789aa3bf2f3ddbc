//! The texts of an SVG that don't depend on what is drawn (Scalable Vector Graphics 1.1).

ghost use Rattle.std.specs.Prelude.{◌≡◌};
ghost use Rattle.sig_svg.specs.Markups.{class_of, word_of, markup_text};

use crate::sort::Sort;

const SVG_WIDTH: &[u8] = b"<svg xmlns='http://www.w3.org/2000/svg' width='";

const SVG_HEIGHT: &[u8] = b"' height='";

const SVG_HEAD: &[u8] =
    b"'>\n<style>text{font:11px monospace;fill:#000;stroke:none}.label{paint-order:stroke;stroke:#fff;\
stroke-width:4px;stroke-linejoin:round}.name{font:bold 12px monospace;text-anchor:middle}\
.middle{text-anchor:middle}.word{font:italic 10px sans-serif;text-anchor:end;paint-order:stroke;\
stroke:#fff;stroke-width:4px}.stamp{fill:#555}.lane{stroke:#888;stroke-width:1.5}.row{stroke:#e4e4e4}\
path{fill:none;stroke:#000;stroke-width:1.2;marker-end:url(#head)}.link{stroke-dasharray:9 3}\
.unlink{stroke-dasharray:9 3 2 3}.unlink_ack{stroke-dasharray:9 3 2 3 2 3}.monitor{stroke-dasharray:2 3}\
.demonitor{stroke-dasharray:2 3 2 9}.alias,.exit,.down,.either{stroke-width:2.6}.exit{stroke-dasharray:9 3}\
.down{stroke-dasharray:2 3}.either{stroke-dasharray:9 3 2 3}.queued{marker-end:url(#end)}\
</style>\n<defs><marker id='head' markerUnits='userSpaceOnUse' markerWidth='12' markerHeight='10' refX='16' refY='5' orient='auto'>\
<polygon points='0,1 10,5 0,9'/></marker><marker id='end' markerUnits='userSpaceOnUse' markerWidth='10' markerHeight='10' refX='5' refY='5'>\
<circle cx='5' cy='5' r='3.5' fill='#fff' stroke='#000'/></marker><circle id='executed' r='5'/>\
<rect id='handled' x='-5' y='-5' width='10' height='10' fill='#fff' stroke='#000' stroke-width='2'/>\
</defs>\n<rect width='100%' height='100%' fill='#fff'/>\n";

const SVG_FOOT: &[u8] = b"</g>\n</svg>\n";

const LEGEND_AT: &[u8] = b"<g transform='translate(20 ";

const LEGEND: &[u8] = b")'>\n\
<path class='message' d='M0 10H90'/><use href='#handled' x='90' y='10'/><text x='105' y='14'>a message</text>\n\
<path class='alias' d='M0 28H90'/><use href='#handled' x='90' y='28'/><text x='105' y='32'>a message through an alias</text>\n\
<path class='link' d='M0 46H90'/><use href='#handled' x='90' y='46'/><text x='105' y='50'>link</text>\n\
<path class='unlink' d='M0 64H90'/><use href='#handled' x='90' y='64'/><text x='105' y='68'>unlink</text>\n\
<path class='unlink_ack' d='M0 82H90'/><use href='#handled' x='90' y='82'/><text x='105' y='86'>the acknowledgement of an unlink</text>\n\
<path class='monitor' d='M0 100H90'/><use href='#handled' x='90' y='100'/><text x='105' y='104'>monitor</text>\n\
<path class='demonitor' d='M0 118H90'/><use href='#handled' x='90' y='118'/><text x='105' y='122'>demonitor</text>\n\
<path class='exit' d='M0 136H90'/><use href='#handled' x='90' y='136'/><text x='105' y='140'>exit signal</text>\n\
<path class='down' d='M0 154H90'/><use href='#handled' x='90' y='154'/><text x='105' y='158'>down: a monitored process has ended</text>\n\
<path class='either' d='M0 172H90'/><use href='#handled' x='90' y='172'/><text x='105' y='176'>exit signal or down, without effect</text>\n\
<use href='#executed' x='395' y='10'/><text x='410' y='14'>the process executed an instruction</text>\n\
<use href='#handled' x='395' y='28'/><text x='410' y='32'>it handled a signal</text>\n\
<path class='queued' d='M370 46H395'/><text x='410' y='50'>a signal that is still queued</text>\n\
<text x='390' y='68'>an arrow from above all rows: of an earlier event</text>\n";

const TITLE: &[u8] = b"<g><title>";

const QUEUED_TITLE: &[u8] = b"<g><title>still queued: ";

const TITLE_END: &[u8] = b"</title>\n";

const GROUP_END: &[u8] = b"</g>\n";

const LANE_X: &[u8] = b"<line class='lane' y1='48' x1='";

const X2: &[u8] = b"' x2='";

const Y2: &[u8] = b"' y2='";

const ROW_Y: &[u8] = b"<line class='row' x1='60' x2='100%' y1='";

const CLOSE: &[u8] = b"'/>\n";

const NAME_X: &[u8] = b"<text class='name' y='24' x='";

const PID_X: &[u8] = b"<text class='middle' y='42' x='";

const MIDDLE_X: &[u8] = b"<text class='middle' x='";

const STAMP_Y: &[u8] = b"<text class='stamp' x='8' y='";

const LABEL_X: &[u8] = b"<text class='label' x='";

const WORD_X: &[u8] = b"<text class='word' x='";

const Y: &[u8] = b"' y='";

const BODY: &[u8] = b"'>";

const TEXT_END: &[u8] = b"</text>\n";

const LESS: &[u8] = b"&lt;";

const GREATER: &[u8] = b"&gt;";

const EXECUTED_X: &[u8] = b"<use href='#executed' x='";

const HANDLED_X: &[u8] = b"<use href='#handled' x='";

const ARROW_CLASS: &[u8] = b"<path class='";

const QUEUED_CLASS: &[u8] = b"<path class='queued ";

const FROM: &[u8] = b"' d='M";

const BEND: &[u8] = b" Q";

const LINE: &[u8] = b" L";

const SPACE: &[u8] = b" ";

const DOTS: &[u8] = b"...";

const SENDER: &[u8] = b" from ";

const RECEIVER: &[u8] = b" to ";

/// A text of an SVG that doesn't depend on what is drawn.
#[derive(Clone, Copy, PartialEq, Eq)]
pub enum Markup {
    /// The beginning, up to the width.
    SvgWidth,
    /// Up to the height.
    SvgHeight,
    /// Up to the first shape: the styles and the signs.
    SvgHead,
    /// The end.
    SvgFoot,
    /// The legend, up to how far down it stands.
    LegendAt,
    /// The legend.
    Legend,
    /// A group with a title.
    Title,
    /// The same of a queued signal.
    QueuedTitle,
    /// The end of a title.
    TitleEnd,
    /// The end of a group.
    GroupEnd,
    /// The line of a lane, up to its first x.
    LaneX,
    /// Its second x.
    X2,
    /// Its second y.
    Y2,
    /// The line of a row, up to its first y.
    RowY,
    /// The end of an element without content.
    Close,
    /// The name of a process, up to its x.
    NameX,
    /// Its pid, up to its x.
    PidX,
    /// A text in the middle of a lane, up to its x.
    MiddleX,
    /// The stamp of a row, up to its y.
    StampY,
    /// What an event says, up to its x.
    LabelX,
    /// The word of an arrow, up to its x.
    WordX,
    /// Up to the y.
    Y,
    /// The content.
    Body,
    /// The end of a text.
    TextEnd,
    /// Before a pid.
    Less,
    /// Behind it.
    Greater,
    /// The sign of an execution, up to its x.
    ExecutedX,
    /// The sign of a handling, up to its x.
    HandledX,
    /// An arrow, up to its kind.
    ArrowClass,
    /// The same of a queued signal.
    QueuedClass,
    /// Its beginning.
    From,
    /// Its bend.
    Bend,
    /// Its end, where it has no bend.
    Line,
    /// A space.
    Space,
    /// In place of the rest of a long text.
    Dots,
    /// Before the sender.
    Sender,
    /// Before the receiver.
    Receiver,
    /// The class of an arrow of this sort.
    Class { sort: Sort },
    /// The word beside an arrow of this sort.
    Word { sort: Sort },
}

fn class_of(sort: Sort) -> &'static [u8]
    ensures { result.now ≡ class_of sort }
{
    match sort {
        Sort::Message => b"message",
        Sort::Alias => b"alias",
        Sort::Link => b"link",
        Sort::Unlink => b"unlink",
        Sort::Ack => b"unlink_ack",
        Sort::Monitor => b"monitor",
        Sort::Demonitor => b"demonitor",
        Sort::Exit => b"exit",
        Sort::Down => b"down",
        Sort::ExitOrDown => b"either",
    }
}

fn word_of(sort: Sort) -> &'static [u8]
    ensures { result.now ≡ word_of sort }
{
    match sort {
        Sort::Message => b"",
        Sort::Alias => b"alias",
        Sort::Link => b"link",
        Sort::Unlink => b"unlink",
        Sort::Ack => b"ack",
        Sort::Monitor => b"monitor",
        Sort::Demonitor => b"demonitor",
        Sort::Exit => b"exit",
        Sort::Down => b"down",
        Sort::ExitOrDown => b"exit or down",
    }
}

impl Markup {
    /// The text.
    #[tactic(auto, unfolding(crate::specs::Markups::markup_text))]
    pub(crate) fn text(self) -> &'static [u8]
        ensures { result.now ≡ markup_text self }
    {
        match self {
            Markup::SvgWidth => SVG_WIDTH,
            Markup::SvgHeight => SVG_HEIGHT,
            Markup::SvgHead => SVG_HEAD,
            Markup::SvgFoot => SVG_FOOT,
            Markup::LegendAt => LEGEND_AT,
            Markup::Legend => LEGEND,
            Markup::Title => TITLE,
            Markup::QueuedTitle => QUEUED_TITLE,
            Markup::TitleEnd => TITLE_END,
            Markup::GroupEnd => GROUP_END,
            Markup::LaneX => LANE_X,
            Markup::X2 => X2,
            Markup::Y2 => Y2,
            Markup::RowY => ROW_Y,
            Markup::Close => CLOSE,
            Markup::NameX => NAME_X,
            Markup::PidX => PID_X,
            Markup::MiddleX => MIDDLE_X,
            Markup::StampY => STAMP_Y,
            Markup::LabelX => LABEL_X,
            Markup::WordX => WORD_X,
            Markup::Y => Y,
            Markup::Body => BODY,
            Markup::TextEnd => TEXT_END,
            Markup::Less => LESS,
            Markup::Greater => GREATER,
            Markup::ExecutedX => EXECUTED_X,
            Markup::HandledX => HANDLED_X,
            Markup::ArrowClass => ARROW_CLASS,
            Markup::QueuedClass => QUEUED_CLASS,
            Markup::From => FROM,
            Markup::Bend => BEND,
            Markup::Line => LINE,
            Markup::Space => SPACE,
            Markup::Dots => DOTS,
            Markup::Sender => SENDER,
            Markup::Receiver => RECEIVER,
            Markup::Class { sort } => class_of(sort),
            Markup::Word { sort } => word_of(sort),
        }
    }
}
