//! How the page of a run looks.
ghost use Rattle.std.specs.Prelude.{◌≡◌};
ghost use Rattle.asm_explore_table.specs.PageStyle.{style as style_sheet};

/// Light or dark, as the reader's system has it. The table's heads stay in view.
const STYLE: &[u8] = b"\
:root{color-scheme:light dark;--ink:#1c1c1a;--soft:#6f6f69;--line:#dddcd4}
:root{--back:#fcfcf9;--mark:#fde9b8;--bad:#c6322b}
@media (prefers-color-scheme:dark){
:root{--ink:#e6e5df;--soft:#96958e;--line:#3a3a37}
:root{--back:#1b1b1a;--mark:#57470f;--bad:#ff7a70}
}
body{margin:2rem;font:14px/1.45 system-ui,sans-serif}
body{color:var(--ink);background:var(--back)}
h1{margin:0;font-size:1.15rem}
h1.bad{color:var(--bad)}
p{margin:.3rem 0;color:var(--soft)}
code,th,td{font:13px/1.45 ui-monospace,monospace}
h1,code{overflow-wrap:anywhere;white-space:pre-wrap}
table{margin:1rem 0;border-spacing:0}
th,td{padding:.15rem .6rem;border-bottom:1px solid var(--line)}
th,td{text-align:left;vertical-align:top;white-space:nowrap}
thead{position:sticky;top:0;z-index:2}
th,.step{background:var(--back)}
tr:first-child th{font-weight:600}
tr+tr th{color:var(--soft)}
.step{position:sticky;left:0;z-index:1;text-align:right;color:var(--soft)}
.group{border-left:1px solid var(--line)}
.same{color:var(--soft)}
.new{background:var(--mark);font-weight:600}
tr.bad td{border-top:2px solid var(--bad)}
";

/// The style sheet of the page.
pub(crate) fn style() -> &'static [u8]
    ensures { result.now ≡ style_sheet }
{
    STYLE
}
