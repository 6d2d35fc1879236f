//! A graph as a text in the DOT language of Graphviz.

ghost use Rattle.std.specs.Prelude.{◌≡◌, ◌++◌, OnOk, string_bytes};
ghost use Rattle.std.specs.List.{flat_map};
ghost use Rattle.revdot.specs.Graphs.{opening, node_style_text, node_line, label_text, small, lowest_line};
ghost use Rattle.revdot.specs.Graphs.{direction_text, link_style_text, back_text, link_line, title_text, graph_text};

use std::alloc::AllocError;
use std::fmt::Write;

/// Where the links of a settled network lead in a drawing: to the destination.
#[derive(Clone, Copy)]
pub enum Direction {
    /// Down, as Graphviz draws if nobody says otherwise.
    TopToBottom,
    /// To the right.
    LeftToRight,
    /// Up.
    BottomToTop,
    /// To the left.
    RightToLeft,
}

/// How a node is drawn.
#[derive(Clone, Copy)]
pub enum NodeStyle {
    /// A circle.
    Plain,
    /// A double circle.
    Destination,
    /// A grey circle.
    CutOff,
    /// A circle filled with gold.
    Turning,
}

/// How a link is drawn.
#[derive(Clone, Copy)]
pub enum LinkStyle {
    /// A thin arrow.
    Plain,
    /// A bold arrow.
    NextHop,
    /// A light arrow.
    CutOff,
    /// An orange arrow.
    Turning,
    /// A very thin arrow.
    Way,
    /// A very thin arrow with a hollow head.
    WayToHop,
    /// A bold arrow.
    FirstWay,
    /// A bold arrow with a hollow head.
    FirstWayToHop,
}

/// A node of a graph.
#[derive(Clone, Copy)]
pub struct DrawnNode {
    /// Its number.
    pub node: u32,
    /// How often it has turned. The drawing has this below the number.
    pub count: u64,
    /// How it is drawn.
    pub style: NodeStyle,
}

/// A link of a graph. It is laid out from its tail to its head.
#[derive(Clone, Copy)]
pub struct DrawnLink {
    /// The end that is laid out first.
    pub tail: u32,
    /// The other end.
    pub head: u32,
    /// How it is drawn.
    pub style: LinkStyle,
    /// Whether the arrow points back, to the tail.
    pub back: bool,
}

/// The text below a graph.
#[derive(Clone, Copy)]
pub enum Label {
    /// No text.
    Plain,
    /// A turn and the node that makes it.
    Turn(Title),
    /// How many turns have no graph.
    LeftOut(u64),
}

/// What the text below the graph of a turn says.
#[derive(Clone, Copy)]
pub struct Title {
    /// The number of the turn, counted from 1.
    pub turn: u32,
    /// The node that turns.
    pub node: u32,
}

/// Appends a graph.
pub fn push_graph(
    text: &mut String,
    direction: Direction,
    label: Label,
    dest: u32,
    nodes: &[DrawnNode],
    links: &[DrawnLink],
) -> Result<(), AllocError>
    ensures { OnOk result
        (string_bytes text.new ≡ string_bytes text.old ++ graph_text direction label dest nodes.now links.now) }
{
    text.push_str(opening_text())?;
    text.push_str(line_of_direction(direction))?;
    push_title(text, label)?;
    push_nodes(text, nodes)?;
    push_lowest(text, dest)?;
    push_links(text, links)?;
    text.push_str("}\n")
}

/// The first lines of each graph: the attributes of all nodes and links.
fn opening_text() -> &'static str
    ensures { result.now ≡ opening }
{
    "digraph network {
    graph [ nodesep = 0.4 ranksep = 0.4 fontname = Helvetica ]
    node [ shape = circle fixedsize = true width = 0.55 fontname = Helvetica style = filled fillcolor = white ]
    edge [ color = gray50 arrowsize = 0.8 ]
"
}

/// The line that says in which direction a graph is laid out, by the names of Graphviz.
fn line_of_direction(direction: Direction) -> &'static str
    ensures { result.now ≡ direction_text direction }
{
    match direction {
        Direction::TopToBottom => "",
        Direction::LeftToRight => "    rankdir = LR\n",
        Direction::BottomToTop => "    rankdir = BT\n",
        Direction::RightToLeft => "    rankdir = RL\n",
    }
}

fn push_title(text: &mut String, label: Label) -> Result<(), AllocError>
    ensures { OnOk result (string_bytes text.new ≡ string_bytes text.old ++ title_text label) }
{
    match label {
        Label::Plain => Ok(()),
        Label::Turn(Title { turn, node }) => {
            writeln!(text, "    label = <turn {turn}: node {node}>")
        }
        Label::LeftOut(turns) => writeln!(text, "    label = <turns without a graph: {turns}>"),
    }
}

fn push_nodes(text: &mut String, nodes: &[DrawnNode]) -> Result<(), AllocError>
    ensures { OnOk result (string_bytes text.new ≡ string_bytes text.old ++ flat_map node_line nodes.now) }
{
    for node in nodes {
        push_node(text, *node)?;
    }
    Ok(())
}

fn push_node(text: &mut String, drawn: DrawnNode) -> Result<(), AllocError>
    ensures { OnOk result (string_bytes text.new ≡ string_bytes text.old ++ node_line drawn) }
{
    let DrawnNode { node, count, style } = drawn;
    write!(text, "    {node} [ label = <")?;
    push_label(text, node, count)?;
    text.push_str(">")?;
    text.push_str(style_of_node(style))?;
    text.push_str(" ]\n")
}

fn push_label(text: &mut String, node: u32, count: u64) -> Result<(), AllocError>
    ensures { OnOk result (string_bytes text.new ≡ string_bytes text.old ++ label_text node count) }
{
    write!(text, "{node}")?;
    text.push_str(small_text())?;
    write!(text, "{count}</font>")?;
    Ok(())
}

/// Begins a new line in a small font.
#[tactic(auto, unfolding(crate::specs::Graphs::small))]
fn small_text() -> &'static str
    ensures { result.now ≡ small }
{
    "<br/><font point-size='9'>"
}

fn style_of_node(style: NodeStyle) -> &'static str
    ensures { result.now ≡ node_style_text style }
{
    match style {
        NodeStyle::Plain => "",
        NodeStyle::Destination => " shape = doublecircle",
        NodeStyle::CutOff => " color = gray70 fontcolor = gray60",
        NodeStyle::Turning => " fillcolor = gold",
    }
}

/// The line that places the destination behind all other nodes.
fn push_lowest(text: &mut String, dest: u32) -> Result<(), AllocError>
    ensures { OnOk result (string_bytes text.new ≡ string_bytes text.old ++ lowest_line dest) }
{
    writeln!(text, "    {{ rank = sink {dest} }}")
}

fn push_links(text: &mut String, links: &[DrawnLink]) -> Result<(), AllocError>
    ensures { OnOk result (string_bytes text.new ≡ string_bytes text.old ++ flat_map link_line links.now) }
{
    for link in links {
        push_link(text, *link)?;
    }
    Ok(())
}

fn push_link(text: &mut String, drawn: DrawnLink) -> Result<(), AllocError>
    ensures { OnOk result (string_bytes text.new ≡ string_bytes text.old ++ link_line drawn) }
{
    let DrawnLink {
        tail,
        head,
        style,
        back,
    } = drawn;
    write!(text, "    {tail} -> {head} [")?;
    text.push_str(style_of_back(back))?;
    text.push_str(style_of_link(style))?;
    text.push_str(" ]\n")
}

fn style_of_back(back: bool) -> &'static str
    ensures { result.now ≡ back_text back }
{
    if back { " dir = back" } else { "" }
}

fn style_of_link(style: LinkStyle) -> &'static str
    ensures { result.now ≡ link_style_text style }
{
    match style {
        LinkStyle::Plain => "",
        LinkStyle::NextHop => " color = black penwidth = 2.5",
        LinkStyle::CutOff => " color = gray80",
        LinkStyle::Turning => " color = darkorange penwidth = 2",
        LinkStyle::Way => " color = black penwidth = 0.6",
        LinkStyle::WayToHop => " color = black penwidth = 0.6 arrowhead = empty",
        LinkStyle::FirstWay => " color = black penwidth = 2.5",
        LinkStyle::FirstWayToHop => " color = black penwidth = 2.5 arrowhead = empty",
    }
}
