//! The style of the page.

/// The style of the page: colours, texts, tables, files with their line numbers, and faults. It is
/// readable on narrow screens, and follows the reader's choice of light or dark.
pub const STYLE: &str = "\
:root { color-scheme: light dark; --text: #1b1f24; --pale: #656d76; \
--line: #d8dee4; --bad: #ffebe9; --mark: #ff8182; --red: #cf222e; \
--link: #0550ae; --paper: #fff; }
@media (prefers-color-scheme: dark) { :root { --text: #e6edf3; \
--pale: #8b949e; --line: #30363d; --bad: #3c1618; --mark: #8e1519; \
--red: #f85149; --link: #79c0ff; --paper: #0d1117; } }
body { font: 16px/1.5 system-ui, sans-serif; margin: 0 auto; max-width: 64rem; \
padding: 1rem; color: var(--text); background: var(--paper); overflow-wrap: anywhere; }
h1 { font-size: 1.5rem } h2 { font-size: 1.1rem; margin: 2rem 0 .5rem }
a { color: var(--link) } code { font-family: ui-monospace, monospace }
table { border-collapse: collapse; width: 100% } td, th { text-align: left; \
padding: .25rem .5rem; vertical-align: top; border-bottom: 1px solid var(--line); }
summary { color: var(--pale); cursor: pointer; padding: 0 1rem }
@media (max-width: 40rem) { .causes tr, .causes td { display: block; border: 0 } \
.causes tr { border-bottom: 1px solid var(--line) } .causes th { display: none } }
.file { border: 1px solid var(--line); border-radius: 6px; overflow-x: auto; \
padding: .5rem 0 } .line { display: flex; font: 14px/1.5 ui-monospace, monospace; \
white-space: pre; overflow-wrap: normal }
.line span:first-child { color: var(--pale); width: 2.75rem; flex: none; \
text-align: right; padding-right: 1rem; user-select: none }
.bad, :target { background: var(--bad) } mark { background: var(--mark); \
color: inherit; border-radius: 2px } .note { position: sticky; left: 0; \
box-sizing: border-box; width: min(52rem, 100vw - 3rem); font-size: .9rem; \
padding: .15rem 1rem .15rem 3.75rem; border-left: 3px solid var(--red) }
";
