//! The style sheet of a picture, for light paper and for dark, and its patterns.

/// Colours on light paper, and all rules that don't depend on the paper. Colour-blind readers can tell the colours of
/// tasks apart (Okabe and Ito).
pub const LIGHT: &str = "<style>\n\
text{fill:#1b1f24}\n\
.paper{fill:#fff}.ink{fill:#1b1f24}.faint{fill:#5a626a}.wrong{fill:#c24f00}\n\
.line{stroke:#d9dde1;fill:none}.edge{stroke:#1b1f24;fill:none}.frame{stroke:#d55e00;fill:none}\n\
.b0{fill:#0072b2}.b1{fill:#e69f00}.b2{fill:#009e73}.b3{fill:#56b4e9}.b4{fill:#cc79a7}.b5{fill:#f0e442}\n\
.c0{stroke:#0072b2}.c1{stroke:#e69f00}.c2{stroke:#009e73}.c3{stroke:#56b4e9}.c4{stroke:#cc79a7}.c5{stroke:#f0e442}\n\
.several{fill:#4d5a68}.c6{stroke:#4d5a68}.cw{stroke:#7d858d}.cp{stroke:#8a6d00}\n\
.wp{fill:#e4e7ea}.wl{stroke:#7d858d;fill:none}.pp{fill:#f6e9b2}.pl,.cap{stroke:#8a6d00;fill:none}.il{stroke:#d55e00;fill:none}\n\
.m0{fill:#fff}.m1,.m2,.m3,.m4,.m5{fill:#101418}\n\
.m0,.m1,.m2,.m3,.m4,.m5{font-size:11px;font-weight:600;text-anchor:middle}\n\
.qg{fill:#ccd2d8}.ql{fill:#7d858d}\n\
.q0{fill:url(#q0)}.q1{fill:url(#q1)}.q2{fill:url(#q2)}.q3{fill:url(#q3)}\n\
.q4{fill:url(#q4)}.q5{fill:url(#q5)}.q6{fill:url(#q6)}.q7{fill:url(#q7)}\n\
.qh{fill:url(#qh)}.qb{fill:url(#qb)}.qp{fill:url(#qp)}.qi{fill:url(#qi)}.qu{fill:url(#qu)}\n\
.q8{fill:url(#q8)}.q9{fill:url(#q9)}.q10{fill:url(#q10)}.q11{fill:url(#q11)}\n\
.q12{fill:url(#q12)}.q13{fill:url(#q13)}.q14{fill:url(#q14)}.q15{fill:url(#q15)}\n\
.i1{opacity:.4}.i2{opacity:.7}\n\
.cap{stroke-dasharray:5 3}.t{stroke-width:2}.r{text-anchor:end}.s{font-size:10px}.h{font-weight:600}\n";

/// Colours on dark paper, where the reader has asked for it.
pub const DARK: &str = "@media (prefers-color-scheme:dark){\n\
text{fill:#e8eaed}\n\
.paper{fill:#14171b}.ink{fill:#e8eaed}.faint{fill:#9aa3ab}.wrong{fill:#ff7a1a}\n\
.line{stroke:#343a41}.edge{stroke:#e8eaed}.frame{stroke:#ff7a1a}\n\
.b0{fill:#3d97d8}.b2{fill:#1fb58a}.b3{fill:#8fd0f5}.b4{fill:#dd94bd}\n\
.c0{stroke:#3d97d8}.c2{stroke:#1fb58a}.c3{stroke:#8fd0f5}.c4{stroke:#dd94bd}\n\
.several{fill:#a3b1c0}.c6{stroke:#a3b1c0}.cw{stroke:#98a2ac}.cp{stroke:#e6c84a}\n\
.wp{fill:#2b3138}.wl{stroke:#98a2ac}.pp{fill:#4a4013}.pl,.cap{stroke:#e6c84a}.il{stroke:#ff7a1a}\n\
.m0{fill:#101418}.qg{fill:#454d56}.ql{fill:#98a2ac}\n\
}\n";

/// The patterns of waits in the queues of a policy.
pub const QUEUES: &str = "<defs>\n\
<pattern id=\"q0\" width=\"6\" height=\"6\" patternUnits=\"userSpaceOnUse\"><path class=\"wp\" d=\"M0 0h6v6h-6z\"/>\
<path class=\"wl\" stroke-width=\"1.3\" d=\"M-1 7L7 -1M-1 1L1 -1M5 7L7 5\"/></pattern>\n\
<pattern id=\"q1\" width=\"4\" height=\"4\" patternUnits=\"userSpaceOnUse\"><path class=\"wp\" d=\"M0 0h4v4h-4z\"/>\
<path class=\"wl\" stroke-width=\"1.3\" d=\"M0 1H2M2 3H4\"/></pattern>\n\
<pattern id=\"q2\" width=\"6\" height=\"6\" patternUnits=\"userSpaceOnUse\"><path class=\"wp\" d=\"M0 0h6v6h-6z\"/>\
<path class=\"wl\" stroke-width=\"1.3\" d=\"M-1 -1L7 7M5 -1L7 1M-1 5L1 7\"/></pattern>\n\
<pattern id=\"q3\" width=\"4\" height=\"4\" patternUnits=\"userSpaceOnUse\"><path class=\"wp\" d=\"M0 0h4v4h-4z\"/>\
<path class=\"wl\" stroke-width=\"1.3\" d=\"M1 0V4\"/></pattern>\n\
<pattern id=\"q4\" width=\"4\" height=\"4\" patternUnits=\"userSpaceOnUse\"><path class=\"wp\" d=\"M0 0h4v4h-4z\"/>\
<path class=\"wl\" stroke-width=\"1.3\" d=\"M0 1H4\"/></pattern>\n\
<pattern id=\"q5\" width=\"6\" height=\"6\" patternUnits=\"userSpaceOnUse\"><path class=\"wp\" d=\"M0 0h6v6h-6z\"/>\
<path class=\"wl\" d=\"M0 0L6 6M6 0L0 6\"/></pattern>\n\
<pattern id=\"q6\" width=\"8\" height=\"8\" patternUnits=\"userSpaceOnUse\"><path class=\"wp\" d=\"M0 0h8v8h-8z\"/>\
<path class=\"wl\" stroke-width=\"1.6\" d=\"M0 2H5M4 6H8\"/></pattern>\n\
<pattern id=\"q7\" width=\"6\" height=\"6\" patternUnits=\"userSpaceOnUse\"><path class=\"wp\" d=\"M0 0h6v6h-6z\"/>\
<path class=\"wl\" d=\"M0 1H6M1 0V6\"/></pattern>\n\
<pattern id=\"q8\" width=\"8\" height=\"8\" patternUnits=\"userSpaceOnUse\"><path class=\"wp\" d=\"M0 0h8v8h-8z\"/>\
<path class=\"ql\" d=\"M0 0h4v8h-4z\"/></pattern>\n\
<pattern id=\"q9\" width=\"12\" height=\"12\" patternUnits=\"userSpaceOnUse\"><path class=\"wp\" d=\"M0 0h12v12h-12z\"/>\
<path class=\"wl\" stroke-width=\"1.4\" d=\"M-1 13L13 -1M-1 1L1 -1M11 13L13 11\"/></pattern>\n\
<pattern id=\"q10\" width=\"8\" height=\"8\" patternUnits=\"userSpaceOnUse\"><path class=\"wp\" d=\"M0 0h8v8h-8z\"/>\
<path class=\"ql\" d=\"M0 0h2v2h-2zM4 4h2v2h-2z\"/></pattern>\n\
<pattern id=\"q11\" width=\"12\" height=\"6\" patternUnits=\"userSpaceOnUse\"><path class=\"wp\" d=\"M0 0h12v6h-12z\"/>\
<path class=\"wl\" stroke-width=\"1.6\" d=\"M0 6L6 0L12 6\"/></pattern>\n\
<pattern id=\"q12\" width=\"8\" height=\"8\" patternUnits=\"userSpaceOnUse\"><path class=\"wp\" d=\"M0 0h8v8h-8z\"/>\
<path class=\"ql\" d=\"M0 0h4v4h-4zM4 4h4v4h-4z\"/></pattern>\n\
<pattern id=\"q13\" width=\"12\" height=\"12\" patternUnits=\"userSpaceOnUse\"><path class=\"wp\" d=\"M0 0h12v12h-12z\"/>\
<path class=\"wl\" stroke-width=\"1\" d=\"M.5 0V12M3.5 0V12\"/></pattern>\n\
<pattern id=\"q14\" width=\"12\" height=\"12\" patternUnits=\"userSpaceOnUse\"><path class=\"wp\" d=\"M0 0h12v12h-12z\"/>\
<path class=\"wl\" stroke-width=\"5\" d=\"M-3 15L15 -3M-3 3L3 -3M9 15L15 9\"/></pattern>\n\
<pattern id=\"q15\" width=\"12\" height=\"12\" patternUnits=\"userSpaceOnUse\"><path class=\"wp\" d=\"M0 0h12v12h-12z\"/>\
<path class=\"wl\" stroke-width=\"1.4\" d=\"M-1 -1L13 13M11 -1L13 1M-1 11L1 13\"/></pattern>\n";

/// The patterns of other waits, and of CPUs that are idle while a task waits, or while a quota is used up.
pub const OTHERS: &str = "\
<pattern id=\"qh\" width=\"6\" height=\"6\" patternUnits=\"userSpaceOnUse\"><path class=\"wp\" d=\"M0 0h6v6h-6z\"/>\
<path class=\"wl\" stroke-width=\"1.3\" d=\"M0 4L3 1L6 4\"/></pattern>\n\
<pattern id=\"qb\" width=\"6\" height=\"6\" patternUnits=\"userSpaceOnUse\"><path class=\"wp\" d=\"M0 0h6v6h-6z\"/>\
<path class=\"wl\" d=\"M0 1H6M0 3H6\"/></pattern>\n\
<pattern id=\"qp\" width=\"12\" height=\"12\" patternUnits=\"userSpaceOnUse\"><path class=\"pp\" d=\"M0 0h12v12h-12z\"/>\
<path class=\"pl\" d=\"M0 1H12M0 5H12M0 9H12M2 1V5M8 5V9M2 9V12\"/></pattern>\n\
<pattern id=\"qi\" width=\"6\" height=\"6\" patternUnits=\"userSpaceOnUse\">\
<path class=\"il\" stroke-width=\"1.6\" d=\"M-1 7L7 -1M-1 1L1 -1M5 7L7 5\"/></pattern>\n\
<pattern id=\"qu\" width=\"6\" height=\"6\" patternUnits=\"userSpaceOnUse\">\
<path class=\"pl\" stroke-width=\"1.6\" d=\"M-1 7L7 -1M-1 1L1 -1M5 7L7 5\"/></pattern>\n\
</defs>\n";
