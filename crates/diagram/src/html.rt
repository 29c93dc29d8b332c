//! The page that shows what depends on what.

use crate::facts::{View, name_of};
use crate::html_letters::add_letters;
use crate::html_marks::{add_intervals, add_signs, needed};
use crate::interval::{Downtime, Interval, Lane};
use crate::layout::{LEFT, Layout};
use crate::page::{
    add_counts, add_down_course, add_extent, add_foot, add_ground, add_label, add_lane_course,
    add_name, add_span, add_ticks,
};
use crate::page_script::SCRIPT;
use crate::page_style::STYLE;
use crate::picture::Picture;
use crate::replay::picture_of;
use crate::style::{ARROWS, COLOURS};
use crate::template::{CLOSE, CONTROLS, END, HEAD, SIDE, VIEW};
use crate::window::Window;
use crate::writer::Writer;
use handler::Handler;
use model::{Entry, NoMemory, TenantName, Unit};
use std::alloc::Global;

/// The end of the page that is drawn where no tenant is open.
const NOTHING: &str = "</style>\n</head>\n<body>\n<p>no tenant is open</p>\n</body>\n</html>\n";

/// Draws a tenant's diagram as one page of HTML that shows what depends on what, by the tenant's entries of a
/// history, and `lines`, the number of the input's line of each entry of the history; an entry past their end has
/// none.
///
/// The page needs nothing else: its policy allows its own style and its own script, by their hashes, and nothing from
/// elsewhere. Each text of a step stands in it as text alone. With no tenant the page says so, and has no script.
///
/// It takes time and memory by the length of the history, whatever the window; handlers are asked once for each
/// accepted receipt. `NoMemory` is the only error.
pub fn draw_page<H: Handler>(
    alloc: Global,
    handler: &H,
    history: &[Entry],
    lines: &[u64],
    tenant: Option<&TenantName>,
    window: Window,
) -> Result<String, NoMemory> {
    let Some(tenant) = tenant else {
        return nothing(alloc);
    };
    let picture = picture_of(alloc, handler, history, tenant)?;
    page_of(alloc, &picture, lines, tenant, window)
}

/// The page that is drawn where no tenant is open.
fn nothing(alloc: Global) -> Result<String, NoMemory> {
    let mut page = Writer::new(alloc);
    add_head(&mut page);
    page.push(NOTHING);
    page.finish()
}

/// The page of a tenant that has this picture.
fn page_of(
    alloc: Global,
    picture: &Picture<'_>,
    lines: &[u64],
    tenant: &TenantName,
    window: Window,
) -> Result<String, NoMemory> {
    let layout = Layout::new(picture, window);
    let needed = needed(alloc, picture, &layout)?;
    let view = View {
        picture,
        layout: &layout,
        lines,
        needed: needed.as_slice(),
    };
    let mut page = Writer::new(alloc);
    add_page(&mut page, &view, tenant);
    page.finish()
}

/// Adds the beginning of a page, up to the end of its style.
fn add_head(page: &mut Writer) {
    page.push(HEAD);
    page.push(COLOURS);
    page.push(STYLE);
}

/// Adds the page that shows this of a tenant.
fn add_page(page: &mut Writer, view: &View<'_, '_>, tenant: &TenantName) {
    add_head(page);
    page.push(CONTROLS);
    add_range(page, view);
    page.push(VIEW);
    add_diagram(page, view, tenant);
    page.push(SIDE);
    add_released(page, view);
    page.push(CLOSE);
    page.push(SCRIPT);
    page.push(END);
}

/// Adds the events that the slider goes over: those of the columns that are drawn, and the end of the history behind
/// them where it isn't drawn.
fn add_range(page: &mut Writer, view: &View<'_, '_>) {
    let (first, end) = (view.layout.columns.first, view.layout.columns.end);
    let last = if end < view.picture.columns {
        end
    } else {
        end.saturating_sub(1).max(first)
    };
    write!(page, "min=\"{first}\" max=\"{last}\" value=\"{last}\"");
}

/// Adds the diagram.
fn add_diagram(page: &mut Writer, view: &View<'_, '_>, tenant: &TenantName) {
    add_frame(page, view);
    page.push(ARROWS);
    add_heading(page, view, tenant);
    add_lines(page, view);
    add_letters(page, view);
    add_intervals(page, view);
    add_signs(page, view);
    add_labels(page, view);
    add_foot(page, view.layout);
}

/// Adds the name of the tenant, its counts, and which columns are drawn.
fn add_heading(page: &mut Writer, view: &View<'_, '_>, tenant: &TenantName) {
    add_name(page, tenant);
    page.push("<g id=\"counts\">");
    add_counts(page, view.picture);
    page.push("</g>\n");
    add_span(page, view.picture, view.layout);
}

/// Adds the beginning of the diagram, with where its columns stand.
fn add_frame(page: &mut Writer, view: &View<'_, '_>) {
    let (width, height) = (view.layout.width(), view.layout.height());
    page.push("<svg id=\"diagram\"");
    add_extent(page, width, height);
    add_columns(page, view);
    page.push(">\n");
    add_ground(page, width, height);
}

/// Adds which columns there are, and where they stand.
fn add_columns(page: &mut Writer, view: &View<'_, '_>) {
    for (name, number) in [
        ("first", view.layout.columns.first),
        ("end", view.layout.columns.end),
        ("all", view.picture.columns),
        ("left", LEFT),
        ("step", view.layout.step()),
        ("right", view.layout.right()),
    ] {
        page.add_number(name, Some(number));
    }
}

/// Adds the numbers of columns, the units' lines, and where units were down.
fn add_lines(page: &mut Writer, view: &View<'_, '_>) {
    add_ticks(page, view.layout);
    for lane in &view.picture.lanes {
        add_lane_course(page, view.layout, lane);
        page.push("\n");
    }
    for downtime in &view.picture.downtimes {
        if view.layout.columns.first <= downtime.end.unwrap_or(usize::MAX) {
            add_downtime(page, view, downtime);
        }
    }
}

/// Adds the part of a unit's line where it was down.
fn add_downtime(page: &mut Writer, view: &View<'_, '_>, downtime: &Downtime) {
    page.push("<path class=\"down\"");
    page.add_number("unit", Some(usize::from(downtime.unit.number())));
    page.add_number("first", Some(downtime.first));
    page.add_number("end", downtime.end);
    add_down_course(page, view.layout, downtime);
}

/// Adds the labels of the units, which stay in sight.
fn add_labels(page: &mut Writer, view: &View<'_, '_>) {
    page.push("<g id=\"labels\">\n");
    for lane in &view.picture.lanes {
        page.push("<g class=\"label\"");
        page.add_position(view.layout.label(lane.seat.unit));
        page.push("<rect x=\"-24\" y=\"-26\" width=\"104\" height=\"52\"/>");
        add_label(page, lane);
    }
    page.push("</g>\n");
}

/// Adds the released outputs of each unit, each a link to its interval.
fn add_released(page: &mut Writer, view: &View<'_, '_>) {
    for lane in &view.picture.lanes {
        if lane.released > 0 {
            add_list(page, view, lane);
        }
    }
}

/// Adds the released outputs of a unit whose intervals are drawn, behind how many there are before them.
fn add_list<'a>(page: &mut Writer, view: &View<'_, 'a>, lane: &Lane<'a>) {
    let earlier = earlier_outputs(view.picture, view.layout, lane);
    begin_list(page, lane.seat.unit, earlier);
    for place in &lane.path {
        if let Some(interval) = view.picture.intervals.get(*place) {
            if view.draws(interval) && interval.released.is_some() {
                add_outputs(page, interval);
            }
        }
    }
    page.push("</ol></section>\n");
}

/// Begins the list of a unit's outputs, which has so many before its first.
fn begin_list(page: &mut Writer, unit: Unit, earlier: usize) {
    let unit = unit.number();
    write!(page, "<section class=\"unit\"><h3>unit {unit}</h3>\n");
    if earlier > 0 {
        write!(
            page,
            "<p class=\"more\">before the first event drawn: {earlier}</p>\n"
        );
    }
    let start = earlier.saturating_add(1);
    write!(page, "<ol start=\"{start}\">\n");
}

/// Adds the outputs of an interval, each a link to it.
fn add_outputs(page: &mut Writer, interval: &Interval<'_>) {
    let name = name_of(interval);
    for output in &interval.outputs {
        write!(
            page,
            "<li class=\"output\" data-of=\"{name}\"><a href=\"#{name}\">"
        );
        page.add_text(output.as_str());
        page.push("</a></li>\n");
    }
}

/// How many released outputs the unit's path has before the first interval that is drawn.
fn earlier_outputs(picture: &Picture<'_>, layout: &Layout, lane: &Lane<'_>) -> usize {
    for place in &lane.path {
        if let Some(interval) = picture.intervals.get(*place) {
            if layout.columns.first <= interval.column {
                return interval.outputs_before.min(lane.released);
            }
        }
    }
    lane.released
}
