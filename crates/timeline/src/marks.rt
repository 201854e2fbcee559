//! The marks of a drawing: what comes before the lanes, and the shape of each event.

use word::request::{Event, EventOutcome, Request};

/// How many colors there are for the items of channels, `c0` to `c9` in `HEAD`.
pub(crate) const CHANNEL_COLORS: usize = 10;

/// What comes before the first lane: the colors, the heads of arrows, and a white ground.
pub(crate) const HEAD: &str =
    "<style>text{font:12px sans-serif;fill:#222}.caption{font-size:15px;font-weight:bold}.small{font-size:10px;fill:#666}.note{font-style:italic}\
.waits{fill:#d01515}.run{stroke:#4a78b0;stroke-width:3}.on{stroke:#4a78b0;stroke-width:3;stroke-dasharray:2 5}.sleep{fill:#e3e3e3}.stuck{fill:#fbdcdc}\
.tail{stroke:#d01515;stroke-width:3}.rail{stroke:#eee}.arrow{stroke-width:1.2}.close{stroke:#444;fill:#444}\
.start{stroke:#3c8d40;fill:#3c8d40}.c0{stroke:#8c6a00;fill:#8c6a00}.c1{stroke:#c2571a;fill:#c2571a}.c2{stroke:#008b8b;fill:#008b8b}\
.c3{stroke:#b5179e;fill:#b5179e}.c4{stroke:#5b4bd6;fill:#5b4bd6}.c5{stroke:#7a4a2a;fill:#7a4a2a}.c6{stroke:#e08a00;fill:#e08a00}\
.c7{stroke:#0077c8;fill:#0077c8}.c8{stroke:#708f00;fill:#708f00}.c9{stroke:#e0559c;fill:#e0559c}.dot{fill:#4a78b0}.print{fill:#111}\
.shut{fill:white;stroke:#222;stroke-width:1.5}.pause{stroke:white;stroke-width:3;stroke-dasharray:5 5}.again{font-size:9px;fill:#888}\
.break{fill:none;stroke:#666}\
.panic{stroke:#d01515;stroke-width:3}.end{stroke:#222;stroke-width:2}.axis{stroke:#bbb}.cut{stroke:#222;stroke-dasharray:6 4}</style>\n<defs>\
<marker id=\"close\" viewBox=\"0 0 8 8\" refX=\"7\" refY=\"4\" markerWidth=\"6\" markerHeight=\"6\" orient=\"auto\"><path class=\"close\" d=\"M0 0L8 4L0 8z\"/></marker>\
<marker id=\"start\" viewBox=\"0 0 8 8\" refX=\"7\" refY=\"4\" markerWidth=\"6\" markerHeight=\"6\" orient=\"auto\"><path class=\"start\" d=\"M0 0L8 4L0 8z\"/></marker>\
<marker id=\"c0\" viewBox=\"0 0 8 8\" refX=\"7\" refY=\"4\" markerWidth=\"6\" markerHeight=\"6\" orient=\"auto\"><path class=\"c0\" d=\"M0 0L8 4L0 8z\"/></marker>\
<marker id=\"c1\" viewBox=\"0 0 8 8\" refX=\"7\" refY=\"4\" markerWidth=\"6\" markerHeight=\"6\" orient=\"auto\"><path class=\"c1\" d=\"M0 0L8 4L0 8z\"/></marker>\
<marker id=\"c2\" viewBox=\"0 0 8 8\" refX=\"7\" refY=\"4\" markerWidth=\"6\" markerHeight=\"6\" orient=\"auto\"><path class=\"c2\" d=\"M0 0L8 4L0 8z\"/></marker>\
<marker id=\"c3\" viewBox=\"0 0 8 8\" refX=\"7\" refY=\"4\" markerWidth=\"6\" markerHeight=\"6\" orient=\"auto\"><path class=\"c3\" d=\"M0 0L8 4L0 8z\"/></marker>\
<marker id=\"c4\" viewBox=\"0 0 8 8\" refX=\"7\" refY=\"4\" markerWidth=\"6\" markerHeight=\"6\" orient=\"auto\"><path class=\"c4\" d=\"M0 0L8 4L0 8z\"/></marker>\
<marker id=\"c5\" viewBox=\"0 0 8 8\" refX=\"7\" refY=\"4\" markerWidth=\"6\" markerHeight=\"6\" orient=\"auto\"><path class=\"c5\" d=\"M0 0L8 4L0 8z\"/></marker>\
<marker id=\"c6\" viewBox=\"0 0 8 8\" refX=\"7\" refY=\"4\" markerWidth=\"6\" markerHeight=\"6\" orient=\"auto\"><path class=\"c6\" d=\"M0 0L8 4L0 8z\"/></marker>\
<marker id=\"c7\" viewBox=\"0 0 8 8\" refX=\"7\" refY=\"4\" markerWidth=\"6\" markerHeight=\"6\" orient=\"auto\"><path class=\"c7\" d=\"M0 0L8 4L0 8z\"/></marker>\
<marker id=\"c8\" viewBox=\"0 0 8 8\" refX=\"7\" refY=\"4\" markerWidth=\"6\" markerHeight=\"6\" orient=\"auto\"><path class=\"c8\" d=\"M0 0L8 4L0 8z\"/></marker>\
<marker id=\"c9\" viewBox=\"0 0 8 8\" refX=\"7\" refY=\"4\" markerWidth=\"6\" markerHeight=\"6\" orient=\"auto\"><path class=\"c9\" d=\"M0 0L8 4L0 8z\"/></marker>\
</defs>\n<rect width=\"100%\" height=\"100%\" fill=\"white\"/>\n";

/// What the marks mean.
pub(crate) const LEGEND: &str = "<g transform=\"translate(12,56)\">\
<line class=\"run\" x1=\"0\" y1=\"-4\" x2=\"24\" y2=\"-4\"/><text x=\"30\">awake</text>\
<rect class=\"sleep\" x=\"78\" y=\"-12\" width=\"24\" height=\"16\"/><text x=\"108\">asleep</text>\
<line class=\"arrow c1\" x1=\"158\" y1=\"-4\" x2=\"182\" y2=\"-4\" marker-end=\"url(#c1)\"/><text x=\"188\">item</text>\
<line class=\"arrow close\" x1=\"230\" y1=\"-4\" x2=\"254\" y2=\"-4\" marker-end=\"url(#close)\"/>\
<path class=\"shut\" d=\"M225 -4l5 -5l5 5l-5 5z\"/><text x=\"259\">close</text>\
<line class=\"arrow start\" x1=\"298\" y1=\"-4\" x2=\"322\" y2=\"-4\" marker-end=\"url(#start)\"/><text x=\"328\">go</text>\
<path class=\"dot\" d=\"M362 -4m-3 0a3 3 0 1 0 6 0a3 3 0 1 0 -6 0z\"/><text x=\"370\">event</text>\
<path class=\"print\" d=\"M416 -4m-4 -4h8v8h-8z\"/><text x=\"427\">print</text>\
<path class=\"panic\" d=\"M476 -4m-5 -5l10 10m0 -10l-10 10\"/><text x=\"488\">panic</text>\
<line class=\"end\" x1=\"536\" y1=\"-12\" x2=\"536\" y2=\"4\"/><text x=\"543\">end</text>\
<line class=\"on\" x1=\"580\" y1=\"-4\" x2=\"604\" y2=\"-4\"/><text x=\"610\">runs on</text>\
<rect class=\"stuck\" x=\"666\" y=\"-12\" width=\"24\" height=\"16\"/><line class=\"tail\" x1=\"666\" y1=\"-4\" x2=\"690\" y2=\"-4\"/><text x=\"696\">deadlock</text></g>\n";

/// The mark of an event: its class, and its shape around its point.
#[derive(Clone, Copy)]
pub(crate) struct Mark {
    pub class: &'static str,
    pub shape: &'static str,
}

/// The mark of an event, smaller if the drawing is dense.
pub(crate) fn mark_of(event: &Event, is_dense: bool) -> Mark {
    match (&event.outcome, &event.request) {
        (EventOutcome::Panics(..), _) => Mark {
            class: "panic",
            shape: "m-5 -5l10 10m0 -10l-10 10",
        },
        (EventOutcome::Done(_), Request::Close(_)) => Mark {
            class: "shut",
            shape: "m-5 0l5 -5l5 5l-5 5z",
        },
        (_, Request::Print(_)) if is_dense => Mark {
            class: "print",
            shape: "m-1 -4h2v8h-2z",
        },
        (_, Request::Print(_)) => Mark {
            class: "print",
            shape: "m-4 -4h8v8h-8z",
        },
        _ if is_dense => Mark {
            class: "dot",
            shape: "m-2 0a2 2 0 1 0 4 0a2 2 0 1 0 -4 0z",
        },
        _ => Mark {
            class: "dot",
            shape: "m-3 0a3 3 0 1 0 6 0a3 3 0 1 0 -6 0z",
        },
    }
}
