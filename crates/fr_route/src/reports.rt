//! The report of a round, in each form.

ghost use Rattle.std.specs.Prelude.{◌≡◌, ◌≢◌, ◌<◌, ◌≤◌, ◌++◌, ◌^◌, [], length, OnOk, string_bytes};
ghost use Rattle.std.specs.Prelude.{string_capacity, string_len};
ghost use Rattle.std.specs.Option.{option_copied};
ghost use Rattle.fr_route.specs.Listing.{AsksWays, nodes_told, ways_told};
ghost use Rattle.fr_route.specs.Replies.{IsReportIn};
ghost use Rattle.fr_route.specs.Reroutes.{AreReplaced};
ghost use Rattle.fr_route.specs.Rooms.{Fits, report_in, report_room, report_size};
ghost use Rattle.fr_route.specs.Texts.{longest_report};
ghost use Rattle.fr_route.specs.declared.form.Form.TheVariants.{JsonWithWays, Text};

use crate::change::Report;
use crate::changed_nodes::ChangedNodes;
use crate::form::{Draft, Form};
use crate::json::{push_report_object, push_report_with_ways};
use crate::listed_phases::{from_changes, from_plan};
use crate::router::Router;
use crate::texts::push_report;
use fr_tables::Hop;
use std::alloc::{AllocError, Global};

/// Empties a line, and takes room for any report of a round on a network of so many nodes and at most so many links.
pub(crate) fn begin_report(
    line: &mut String,
    form: Form,
    nodes: u32,
    links: usize,
) -> Result<(), AllocError>
    requires { links < 2 ^ 32 }
    ensures empty { OnOk result (string_bytes line.new ≡ []) }
    ensures length { OnOk result (string_len line.new ≡ 0) }
    ensures room { OnOk result (report_room form nodes links ≤ string_capacity line.new) }
{
    line.clear();
    line.reserve(bytes_for_report(form, nodes, links))
}

/// The bytes of the longest such report.
fn bytes_for_report(form: Form, nodes: u32, links: usize) -> usize
    requires { links < 2 ^ 32 }
    ensures { result ≡ report_room form nodes links }
{
    match form {
        Form::Text => 52,
        Form::Json => 80 + 24 * nodes as usize,
        Form::JsonWithWays => 100 + 56 * nodes as usize + 22 * links,
    }
}

/// Appends the report of a round. In JSON it has the nodes that the change has rerouted, with their hops in this table, and
/// with ways what to push in both phases.
pub(crate) fn push_report_in_form(
    line: &mut String,
    form: Form,
    report: Report,
    told: &ChangedNodes,
    hops: &[Hop],
) -> Result<(), AllocError>
    requires { form ≡ JsonWithWays → AsksWays told.now }
    ensures text { OnOk result (string_bytes line.new
        ≡ string_bytes line.old ++ report_in form report (nodes_told told.now) hops.now (ways_told told.now)) }
    ensures room { Fits line.old line.new result
        (report_size form (length (nodes_told told.now)) (ways_told told.now)) }
{
    match form {
        Form::Text => push_report(line, report),
        Form::Json => push_report_object(line, report, told.nodes(), hops),
        Form::JsonWithWays => {
            let phases = from_changes(told.way_changes());
            push_report_with_ways(line, report, told.nodes(), hops, phases)
        }
    }
}

/// Writes the report of a network that replaces the one before it, if there was one. The nodes
/// of `replaced` have a new hop.
pub(crate) fn write_new_report(
    alloc: Global,
    draft: &mut Draft,
    before: Option<&Router>,
    router: &Router,
    replaced: &[u32],
) -> Result<(), AllocError>
    ensures report { (draft.old.form ≢ Text → AreReplaced (option_copied before.entry) router.now replaced.now)
        → OnOk result (IsReportIn draft.old.form (AreReplaced (option_copied before.entry) router.now)
        (option_copied before.entry) router.now (string_bytes draft.new.text)) }
    ensures short { draft.old.form ≡ Text → OnOk result (length (string_bytes draft.new.text) ≤ longest_report) }
{
    router.state_law();
    router.net().network_law();
    let net = router.net();
    let form = draft.form;
    let line = &mut draft.text;
    begin_report(line, form, net.nodes(), net.link_count())?;
    let report = router.report();
    match form {
        Form::Text => push_report(line, report),
        Form::Json => push_report_object(line, report, replaced, router.hops()),
        Form::JsonWithWays => push_new_report(alloc, line, before, router, replaced),
    }
}

/// Appends this report in JSON with ways. It is not inlined, so that other reports do not pay for its local variables.
#[inline(never)]
fn push_new_report(
    alloc: Global,
    line: &mut String,
    before: Option<&Router>,
    router: &Router,
    replaced: &[u32],
) -> Result<(), AllocError>
    ensures { string_bytes line.old ≡ [] → AreReplaced (option_copied before.entry) router.now replaced.now
        → OnOk result (IsReportIn JsonWithWays (AreReplaced (option_copied before.entry) router.now)
        (option_copied before.entry) router.now (string_bytes line.new)) }
{
    router.state_law();
    let phases = router.phases_since(alloc, before)?;
    let report = router.report();
    push_report_with_ways(line, report, replaced, router.hops(), from_plan(&phases))
}
