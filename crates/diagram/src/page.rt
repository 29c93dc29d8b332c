//! The page.

use crate::interval::{Downtime, Lane, Status};
use crate::layout::Layout;
use crate::letters::add_letters;
use crate::marks::{add_intervals, add_signs};
use crate::picture::Picture;
use crate::replay::picture_of;
use crate::style::{COLOURS, HEADS, LEGEND};
use crate::window::Window;
use crate::writer::Writer;
use handler::Handler;
use model::{Entry, NoMemory, Reply, TenantName};
use std::alloc::Global;

/// The page that is drawn where no tenant is open.
const NOTHING: &str = "<text class=\"name\" x=\"24\" y=\"40\">no tenant is open</text>\n</svg>\n";

/// How far the numbers of columns stand apart.
const TICKS: usize = 10;

/// The first tenant that a history opens, or the one of this name, if the history opens it.
pub fn find_tenant<'a>(history: &'a [Entry], name: Option<&str>) -> Option<&'a TenantName> {
    for entry in history {
        if let Reply::Opened { .. } = entry.reply {
            let tenant = entry.step.tenant();
            if is_named(tenant, name) {
                return Some(tenant);
            }
        }
    }
    None
}

/// Whether the tenant has this name, if one is asked for.
fn is_named(tenant: &TenantName, name: Option<&str>) -> bool {
    match name {
        Some(name) => name == tenant.as_str(),
        None => true,
    }
}

/// Draws the space-time diagram of a tenant, by its entries of a history, as SVG. Of a tenant that
/// the history doesn't open nothing is drawn but its name; with no tenant the page says so.
///
/// The page takes time and memory by the length of the history, whatever the window; handlers are
/// asked once for each accepted receipt. `NoMemory` is the only error.
pub fn draw<H: Handler>(
    alloc: Global,
    handler: &H,
    history: &[Entry],
    tenant: Option<&TenantName>,
    window: Window,
) -> Result<String, NoMemory> {
    let Some(tenant) = tenant else {
        return nothing(alloc);
    };
    let picture = picture_of(alloc, handler, history, tenant)?;
    let layout = Layout::new(&picture, window);
    let mut svg = Writer::new(alloc);
    add_picture(&mut svg, &picture, &layout, tenant);
    svg.finish()
}

/// The page that is drawn where no tenant is open.
fn nothing(alloc: Global) -> Result<String, NoMemory> {
    let mut svg = Writer::new(alloc);
    add_head(&mut svg, 420, 64);
    svg.push(NOTHING);
    svg.finish()
}

/// Adds the page of a tenant that has this picture.
fn add_picture(svg: &mut Writer, picture: &Picture<'_>, layout: &Layout, tenant: &TenantName) {
    add_head(svg, layout.width(), layout.height());
    add_title(svg, picture, layout, tenant);
    add_lines(svg, picture, layout);
    add_letters(svg, picture, layout);
    add_intervals(svg, picture, layout);
    add_signs(svg, picture, layout);
    add_foot(svg, layout);
}

/// Adds the beginning of a page of this size.
fn add_head(svg: &mut Writer, width: usize, height: usize) {
    svg.push("<svg xmlns=\"http://www.w3.org/2000/svg\"");
    add_extent(svg, width, height);
    svg.push(">\n<style>");
    svg.push(COLOURS);
    svg.push("</style>\n");
    svg.push(HEADS);
    add_ground(svg, width, height);
}

/// Adds how large a picture is, and that all of it is seen.
pub(crate) fn add_extent(svg: &mut Writer, width: usize, height: usize) {
    add_size(svg, width, height);
    write!(svg, " viewBox=\"0 0 {width} {height}\"");
}

/// Adds the ground of a picture of this size.
pub(crate) fn add_ground(svg: &mut Writer, width: usize, height: usize) {
    svg.push("<rect class=\"page\"");
    add_size(svg, width, height);
    svg.push("/>\n");
}

/// Adds how large something is.
fn add_size(svg: &mut Writer, width: usize, height: usize) {
    write!(svg, " width=\"{width}\" height=\"{height}\"");
}

/// Adds the name of the tenant, and its counts.
fn add_title(svg: &mut Writer, picture: &Picture<'_>, layout: &Layout, tenant: &TenantName) {
    add_name(svg, tenant);
    add_counts(svg, picture);
    add_span(svg, picture, layout);
}

/// Adds the name of the tenant.
pub(crate) fn add_name(svg: &mut Writer, tenant: &TenantName) {
    svg.push("<text class=\"name\" x=\"24\" y=\"34\">tenant ");
    svg.add_text(tenant.as_str());
    svg.push("</text>\n");
}

/// Adds which columns are drawn, where not all are.
pub(crate) fn add_span(svg: &mut Writer, picture: &Picture<'_>, layout: &Layout) {
    let (first, end, all) = (layout.columns.first, layout.columns.end, picture.columns);
    if layout.columns.count() < all {
        write!(
            svg,
            "<text class=\"kind\" x=\"24\" y=\"96\">columns from {first} to before {end}, of {all}</text>\n",
        );
    }
}

/// Adds how many intervals, letters and outputs there are.
pub(crate) fn add_counts(svg: &mut Writer, picture: &Picture<'_>) {
    let intervals = [
        ("intervals", picture.intervals.len()),
        (": firm", picture.count(Status::Firm)),
        (", stable", picture.count(Status::Stable)),
        (", volatile", picture.count(Status::Volatile)),
        (", lost", picture.count(Status::Lost)),
        (", cut", picture.count(Status::Cut)),
    ];
    let others = [
        ("letters", picture.letters.len()),
        (": not delivered", picture.undelivered()),
        ("; outputs: released", picture.released()),
        (", held", picture.held()),
    ];
    add_row_of_counts(svg, 58, &intervals);
    add_row_of_counts(svg, 77, &others);
}

/// Adds a row of counts at this height, each behind its name.
fn add_row_of_counts(svg: &mut Writer, y: usize, counts: &[(&str, usize)]) {
    write!(svg, "<text x=\"24\" y=\"{y}\">");
    for (name, count) in counts {
        write!(svg, "{name} {count}");
    }
    svg.push("</text>\n");
}

/// Adds the numbers of columns, and the lines of units.
fn add_lines(svg: &mut Writer, picture: &Picture<'_>, layout: &Layout) {
    add_ticks(svg, layout);
    for lane in &picture.lanes {
        add_lane(svg, layout, lane);
    }
    for downtime in &picture.downtimes {
        add_downtime(svg, layout, downtime);
    }
}

/// Adds the numbers of columns.
pub(crate) fn add_ticks(svg: &mut Writer, layout: &Layout) {
    for column in layout.columns.first..layout.columns.end {
        if column % TICKS == 0 {
            add_tick(svg, layout, column);
        }
    }
}

/// Adds the number of a column.
fn add_tick(svg: &mut Writer, layout: &Layout, column: usize) {
    let (x, end) = (layout.x(column), layout.legend().saturating_sub(48));
    write!(
        svg,
        "<path class=\"tick\" d=\"M{x} 118V{end}\"/><text class=\"column\" x=\"{x}\" y=\"114\">{column}</text>\n",
    );
}

/// Adds the line of a unit, with its number and kind.
fn add_lane(svg: &mut Writer, layout: &Layout, lane: &Lane<'_>) {
    add_lane_course(svg, layout, lane);
    svg.push("<g");
    svg.add_position(layout.label(lane.seat.unit));
    add_label(svg, lane);
}

/// Adds the line of a unit.
pub(crate) fn add_lane_course(svg: &mut Writer, layout: &Layout, lane: &Lane<'_>) {
    let start = layout.point(lane.column, lane.seat.unit);
    let end = layout.right();
    write!(svg, "<path class=\"lane\" d=\"M{start}H{end}\"/>");
}

/// Adds the number and the kind of a unit, and ends their group.
pub(crate) fn add_label(svg: &mut Writer, lane: &Lane<'_>) {
    let number = lane.seat.unit.number();
    write!(
        svg,
        "<text y=\"-2\">unit {number}</text><text class=\"kind\" y=\"14\">"
    );
    svg.add_text(lane.kind);
    svg.push("</text></g>\n");
}

/// Adds the part of a unit's line where it was down.
fn add_downtime(svg: &mut Writer, layout: &Layout, downtime: &Downtime) {
    svg.push("<path class=\"down\"");
    add_down_course(svg, layout, downtime);
}

/// Adds where on its line a unit was down, and ends the tag.
pub(crate) fn add_down_course(svg: &mut Writer, layout: &Layout, downtime: &Downtime) {
    let start = layout.point(downtime.first, downtime.unit);
    let end = match downtime.end {
        Some(column) => layout.x(column),
        None => layout.right(),
    };
    write!(svg, " d=\"M{start}H{end}\"/>\n");
}

/// Adds the legend, and the end of the page.
pub(crate) fn add_foot(svg: &mut Writer, layout: &Layout) {
    let y = layout.legend();
    write!(svg, "<g class=\"legend\" transform=\"translate(0 {y})\">\n");
    svg.push(LEGEND);
    svg.push("</g>\n</svg>\n");
}
