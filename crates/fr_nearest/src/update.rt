//! The update of distances after a change of the links. First it raises the distance of each node that has lost its
//! nearest way, and lowers none. Then it takes up the nodes that have gained a way, and those that this affects. When
//! none is left, the distance of each node agrees with its links, so all distances are right.

ghost use Rattle.std.specs.Prelude.{◌≡◌, ◌≢◌, ℕ, ◌<◌, ◌≤◌, List, length, vec_capacity, All, Contains, IsTrue};
ghost use Rattle.fr_graph.specs.Limits.{most_nodes};
ghost use Rattle.fr_graph.specs.declared.first.First.TheVariants.{Inward, Outward};
ghost use Rattle.fr_nearest.specs.Distances.{no_distance};
ghost use Rattle.fr_nearest.specs.Local.{IsByLinks, IsSmall, one_farther};
ghost use Rattle.fr_nearest.specs.LinkChanges.{HasEndsBelow, IsOutOfDate};
ghost use Rattle.fr_nearest.specs.Update.{IsLeastWay, IsListed, IsPending, IsRaising, IsReversed, IsTouched};
ghost use Rattle.fr_nearest.specs.Update.{IsUnaffected, IsUnaffectedBy, IsUpdated, KeepsOthers, Lists, ListsAffected};
ghost use Rattle.fr_nearest.specs.Update.{ListsOne, ListsTurned, RaisesOne, SetsOne, Touches, UpdatesOne, direction_of};

use crate::distances::NONE;
use fr_graph::{Edit, First, Net};

/// How the links have changed since the last update.
#[derive(Clone, Copy)]
pub struct LinkChanges<'a> {
    /// Links were removed or added only by these edits.
    pub edits: &'a [Edit],
    /// Links were reversed only at these nodes.
    pub turned: &'a [u32],
}

/// What has happened to a node.
#[derive(Debug, Clone, Copy)]
enum Event {
    /// It has lost a way.
    Lost,
    /// It has gained a way.
    Gained,
}

/// Whether the distance `own` of a node can be wrong after the distance of one of its ways has changed. A node that was
/// right can be too near if this was its nearest way, and too far if it is now.
fn is_affected(own: u16, old: u16, new: u16) -> bool
    ensures { ¬ IsTrue result → IsUnaffected own old new }
{
    (old < own && own <= new) || own > one_link_farther(new)
}

/// Whether the distance `own` of a node can be wrong after this has happened at a way with the distance `way`.
fn is_affected_by(event: Event, own: u16, way: u16) -> bool
    ensures { ¬ IsTrue result → IsUnaffectedBy event own way }
{
    match event {
        Event::Lost => is_affected(own, way, NONE),
        Event::Gained => is_affected(own, NONE, way),
    }
}

/// The distance of a node whose nearest way has this distance.
fn one_link_farther(distance: u16) -> u16
    ensures { result ≡ one_farther distance }
{
    distance.saturating_add(1)
}

/// Appends node `x` if its distance can be wrong after that of one of its ways has changed from `old` to `new`: a way
/// that is lost has `NONE` as `new`, and a way that is gained has `NONE` as `old`. Returns `false` if the list has no
/// room.
fn list_if_affected(x: u32, old: u16, new: u16, distances: &[u16], list: &mut Vec<u16>) -> bool
    requires node { x < length distances.now }
    requires few { length distances.now ≤ most_nodes }
    requires listed { IsListed (length distances.now) list.old.items }
    requires room { length distances.now ≤ vec_capacity list.old }
    ensures listed { IsTrue result
        → ListsOne (length distances.now) distances.now x old new list.old.items list.new.items }
    ensures room { vec_capacity list.new ≡ vec_capacity list.old }
{
    if is_affected(distances[x as usize], old, new) {
        if list.len() >= distances.len() {
            return false;
        }
        list.push_reserved(x as u16);
    }
    true
}

/// Appends the ends of an edited link that have lost or gained a way by this, if their distance can be wrong. That can
/// only be the farther end. Returns `false` if the list has no room.
fn list_edit_ends(edit: Edit, event: Event, distances: &[u16], list: &mut Vec<u16>) -> bool
    requires below { HasEndsBelow (length distances.now) edit }
    requires few { length distances.now ≤ most_nodes }
    requires listed { IsListed (length distances.now) list.old.items }
    requires room { length distances.now ≤ vec_capacity list.old }
    ensures listed { IsTrue result
        → Lists (length distances.now) distances.now event (Touches event edit) list.old.items list.new.items }
    ensures room { vec_capacity list.new ≡ vec_capacity list.old }
{
    match edit {
        Edit::Cut { u, v } => match event {
            Event::Lost => {
                list_if_affected(u, distances[v as usize], NONE, distances, list)
                    && list_if_affected(v, distances[u as usize], NONE, distances, list)
            }
            Event::Gained => true,
        },
        Edit::Add { u, v } | Edit::Join { u, v } => match event {
            Event::Lost => true,
            Event::Gained => {
                list_if_affected(u, NONE, distances[v as usize], distances, list)
                    && list_if_affected(v, NONE, distances[u as usize], distances, list)
            }
        },
    }
}

/// Does this for each edit.
fn list_edits(edits: &[Edit], event: Event, distances: &[u16], list: &mut Vec<u16>) -> bool
    requires below { All (HasEndsBelow (length distances.now)) edits.now }
    requires few { length distances.now ≤ most_nodes }
    requires listed { IsListed (length distances.now) list.old.items }
    requires room { length distances.now ≤ vec_capacity list.old }
    ensures listed { IsTrue result
        → Lists (length distances.now) distances.now event (IsTouched event edits.now) list.old.items list.new.items }
    ensures room { vec_capacity list.new ≡ vec_capacity list.old }
{
    for edit in edits {
        if !list_edit_ends(*edit, event, distances, list) {
            return false;
        }
    }
    true
}

/// The direction in which a node that has turned sees its link to a neighbour that has lost or gained it as a way.
fn direction_for_turned(event: Event) -> First
    ensures { result ≡ direction_of event }
{
    match event {
        Event::Lost => First::Outward,
        Event::Gained => First::Inward,
    }
}

/// Appends node `x`, which has turned, and the neighbours that have lost or gained it as a way, if their distance can
/// be wrong. Returns `false` if the list has no room for all neighbours.
fn list_turned_node(net: &Net, x: u32, event: Event, distances: &[u16], list: &mut Vec<u16>) -> bool
    requires node { x < net.now.nodes }
    requires one_each { length distances.now ≡ net.now.nodes }
    requires listed { IsListed net.now.nodes list.old.items }
    requires room { net.now.nodes ≤ vec_capacity list.old }
    ensures listed { IsTrue result
        → (lists : Lists net.now.nodes distances.now event (IsReversed event net.now.links x) list.old.items
        list.new.items) × Contains lists.added x }
    ensures room { vec_capacity list.new ≡ vec_capacity list.old }
{
    net.network_law();
    let own = distances[x as usize];
    let seen = direction_for_turned(event);
    let row = net.row(x);
    if list.len() + row.len() >= distances.len() {
        return false;
    }
    list.push_reserved(x as u16);
    for (w, first) in row {
        if *first == seen && is_affected_by(event, distances[*w as usize], own) {
            list.push_reserved(*w);
        }
    }
    true
}

/// Does this for each node that has turned.
fn list_turned(
    net: &Net,
    turned: &[u32],
    event: Event,
    distances: &[u16],
    list: &mut Vec<u16>,
) -> bool
    requires below { All (λ (x : ℕ). x < net.now.nodes) turned.now }
    requires one_each { length distances.now ≡ net.now.nodes }
    requires listed { IsListed net.now.nodes list.old.items }
    requires room { net.now.nodes ≤ vec_capacity list.old }
    ensures listed { IsTrue result → ListsTurned net.now distances.now event turned.now list.old.items list.new.items }
    ensures room { vec_capacity list.new ≡ vec_capacity list.old }
{
    for x in turned {
        if !list_turned_node(net, *x, event, distances, list) {
            return false;
        }
    }
    true
}

/// Updates the distances of all nodes for which they can be wrong. `last` is the destination of the distances, and
/// `dest` the new one. Lists the nodes whose distance may have changed. Returns `false` if the destination has moved,
/// or if this takes more steps than there are nodes; then the distances have to be measured anew.
pub(crate) fn try_update(
    net: &Net,
    last: u32,
    dest: u32,
    touched: &LinkChanges<'_>,
    distances: &mut [u16],
    list: &mut Vec<u16>,
) -> bool
    requires node { dest < net.now.nodes }
    requires small { IsSmall net.now.nodes distances.old }
    requires old { IsOutOfDate net.now touched.now last distances.old }
    requires room { net.now.nodes ≤ vec_capacity list.old }
    ensures one_each { length distances.new ≡ length distances.old }
    ensures updated { IsTrue result → IsUpdated net.now dest distances.old distances.new list.new.items }
    ensures room { vec_capacity list.new ≡ vec_capacity list.old }
{
    net.network_law();
    list.clear();
    if last != dest
        || !list_edits(touched.edits, Event::Lost, distances, list)
        || !list_turned(net, touched.turned, Event::Lost, distances, list)
        || !raise_listed(net, dest, distances, list)
    {
        return false;
    }
    let read = list.len();
    if !list_edits(touched.edits, Event::Gained, distances, list)
        || !list_turned(net, touched.turned, Event::Gained, distances, list)
    {
        return false;
    }
    update_listed(net, dest, read, distances, list)
}

/// Raises the distances of the listed nodes that have no nearer way, and of all nodes that lose theirs by this. Returns
/// `false` if the list gets too long.
fn raise_listed(net: &Net, dest: u32, distances: &mut [u16], list: &mut Vec<u16>) -> bool
    requires raising { IsRaising net.now dest distances.old distances.old list.old.items 0 }
    requires room { net.now.nodes ≤ vec_capacity list.old }
    ensures one_each { length distances.new ≡ length distances.old }
    ensures raised { IsTrue result
        → IsRaising net.now dest distances.old distances.new list.new.items (length list.new.items) }
    ensures room { vec_capacity list.new ≡ vec_capacity list.old }
{
    net.network_law();
    let mut read = 0;
    while read < list.len() {
        if !raise_distance(net, dest, list[read], distances, list) {
            return false;
        }
        read += 1;
    }
    true
}

/// Raises the distance of node `x` if it has no nearer way. Then appends the neighbours whose distance this can make
/// wrong. Returns `false` as `set_distance` does.
fn raise_distance(net: &Net, dest: u32, x: u16, distances: &mut [u16], list: &mut Vec<u16>) -> bool
    requires node { x < net.now.nodes }
    requires one_each { length distances.old ≡ net.now.nodes }
    requires small { IsSmall net.now.nodes distances.old }
    requires listed { IsListed net.now.nodes list.old.items }
    requires room { net.now.nodes ≤ vec_capacity list.old }
    ensures one_each { length distances.new ≡ length distances.old }
    ensures raised { IsTrue result
        → RaisesOne net.now dest x distances.old list.old.items distances.new list.new.items }
    ensures room { vec_capacity list.new ≡ vec_capacity list.old }
{
    net.network_law();
    let old = distances[x as usize];
    if x as u32 == dest || old == NONE {
        return true;
    }
    let least = least_way_distance(net, x, old, distances);
    least < old || set_distance(net, x, one_link_farther(least), distances, list)
}

/// Updates the distances of the listed nodes from the place `read` on, and of all nodes that this makes wrong. Returns
/// `false` if the list gets too long.
fn update_listed(
    net: &Net,
    dest: u32,
    read: usize,
    distances: &mut [u16],
    list: &mut Vec<u16>,
) -> bool
    requires pending { IsPending net.now dest distances.old list.old.items read }
    requires room { net.now.nodes ≤ vec_capacity list.old }
    ensures one_each { length distances.new ≡ length distances.old }
    ensures updated { IsTrue result → (before : List ℕ) → KeepsOthers before distances.old list.old.items
        → IsUpdated net.now dest before distances.new list.new.items }
    ensures room { vec_capacity list.new ≡ vec_capacity list.old }
{
    net.network_law();
    let mut at = read;
    while at < list.len() {
        if !update_distance(net, dest, list[at], distances, list) {
            return false;
        }
        at += 1;
    }
    true
}

/// Updates the distance of node `x`. If it changes, appends the neighbours whose distance it can make wrong. Returns
/// `false` as `set_distance` does.
fn update_distance(net: &Net, dest: u32, x: u16, distances: &mut [u16], list: &mut Vec<u16>) -> bool
    requires node { x < net.now.nodes }
    requires one_each { length distances.old ≡ net.now.nodes }
    requires small { IsSmall net.now.nodes distances.old }
    requires listed { IsListed net.now.nodes list.old.items }
    requires room { net.now.nodes ≤ vec_capacity list.old }
    ensures one_each { length distances.new ≡ length distances.old }
    ensures updated { IsTrue result
        → UpdatesOne net.now dest x distances.old list.old.items distances.new list.new.items }
    ensures room { vec_capacity list.new ≡ vec_capacity list.old }
{
    net.network_law();
    let new = distance_by_links(net, dest, x, distances);
    new == distances[x as usize] || set_distance(net, x, new, distances, list)
}

/// The distance of node `x` according to those of the nodes to which its links point.
fn distance_by_links(net: &Net, dest: u32, x: u16, distances: &[u16]) -> u16
    requires node { x < net.now.nodes }
    requires one_each { length distances.now ≡ net.now.nodes }
    ensures { IsByLinks net.now.links dest distances.now x result }
{
    net.network_law();
    if x as u32 == dest {
        return 0;
    }
    one_link_farther(least_way_distance(net, x, 0, distances))
}

/// The least distance of the nodes to which the links of node `x` point. Or one that is less than `enough`: it stops at
/// the first of these.
fn least_way_distance(net: &Net, x: u16, enough: u16, distances: &[u16]) -> u16
    requires node { x < net.now.nodes }
    requires one_each { length distances.now ≡ net.now.nodes }
    ensures { IsLeastWay net.now.links distances.now x enough result }
{
    net.network_law();
    let mut least = NONE;
    let row = net.row(x as u32);
    for (w, first) in row {
        if *first == First::Outward {
            least = least.min(distances[*w as usize]);
            if least < enough {
                return least;
            }
        }
    }
    least
}

/// Gives node `x` a distance, and appends the neighbours whose distance this can make wrong. Returns `false` if there
/// is no room for one of them, or if the distance is greater than the number of nodes, which shows that it rests on
/// distances that are out of date.
fn set_distance(net: &Net, x: u16, new: u16, distances: &mut [u16], list: &mut Vec<u16>) -> bool
    requires node { x < net.now.nodes }
    requires one_each { length distances.old ≡ net.now.nodes }
    requires small { IsSmall net.now.nodes distances.old }
    requires listed { IsListed net.now.nodes list.old.items }
    requires room { net.now.nodes ≤ vec_capacity list.old }
    ensures one_each { length distances.new ≡ length distances.old }
    ensures set { IsTrue result → SetsOne net.now x new distances.old list.old.items distances.new list.new.items }
    ensures room { vec_capacity list.new ≡ vec_capacity list.old }
{
    net.network_law();
    if new != NONE && new as usize > distances.len() {
        return false;
    }
    let old = distances[x as usize];
    distances[x as usize] = new;
    list_affected(net, x, old, distances, list)
}

/// Appends each node with a link to node `x` whose distance can be wrong, because the distance of `x` was `old`.
/// Returns `false` if there is no room for one of them.
fn list_affected(net: &Net, x: u16, old: u16, distances: &[u16], list: &mut Vec<u16>) -> bool
    requires node { x < net.now.nodes }
    requires one_each { length distances.now ≡ net.now.nodes }
    requires listed { IsListed net.now.nodes list.old.items }
    requires room { net.now.nodes ≤ vec_capacity list.old }
    ensures listed { IsTrue result → ListsAffected net.now x old distances.now list.old.items list.new.items }
    ensures room { vec_capacity list.new ≡ vec_capacity list.old }
{
    net.network_law();
    let new = distances[x as usize];
    let row = net.row(x as u32);
    for (y, first) in row {
        if *first == First::Inward && !list_if_affected(*y as u32, old, new, distances, list) {
            return false;
        }
    }
    true
}
