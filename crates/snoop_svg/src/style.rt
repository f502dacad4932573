//! The colours of a drawing, and what stands around the sheets of a page.
ghost use Rattle.std.specs.Prelude.{◌≡◌, ◌++◌, OnOk};
ghost use Rattle.snoop_svg.specs.Styles.{dark_rules, dark_where_asked, light_rules, page_end, page_head, page_middle, page_rules, page_top, schemes, style};

use crate::paper::Theme;
use snoop_trace::NoMemory;
use snoop_trace::streams::push_text;

/// The rules of each class, as they are on light ground.
const LIGHT_RULES: &str =
    "text{font:12px ui-monospace,Menlo,Consolas,\"DejaVu Sans Mono\",\"Liberation Mono\",monospace;fill:#1a1a1a}
.paper{fill:#fff}.h,.l{stroke:#d0d0d0}.j{stroke:#808080;stroke-dasharray:1 5}
.w{fill:#f0a050}.c{fill:#fbdcb4}.r{fill:#b5d8f0}.m{fill:#cfe6dc}.bus{fill:#f2f2f2}.b{fill:#d9d2e9}
.s,.o{font-weight:700}.k,.t{fill:#404040}.z{fill:#a51d14}
.u{stroke:#1a1a1a}.p{stroke:#1a1a1a;stroke-width:2;fill:#1a1a1a}.g{stroke:#0b4f7d;stroke-width:2;fill:#0b4f7d}
.q,.d{stroke:#1a1a1a;stroke-width:2}.q{stroke-dasharray:2 4}.i{fill:#fff;stroke:#1a1a1a;stroke-width:2}
.v{stroke:#a51d14;stroke-width:2;stroke-dasharray:4 4}.x{stroke:#a51d14;stroke-width:2;fill:none}
.ask{fill:#fff;stroke:#1a1a1a}.edge{fill:#5c2e00}.done{fill:#1a1a1a;stroke:#1a1a1a}.y{fill:transparent}
a:focus{outline:none}a:focus .y{stroke:#1a1a1a;stroke-width:2}a:target .y{fill:#ffe98a}a:target~a{opacity:.12}
";

/// What dark ground changes.
const DARK_RULES: &str =
    "text{fill:#f0f0f0}.paper,.i,.ask{fill:#15171a}.h,.l{stroke:#3c4046}.j{stroke:#909090}
.w{fill:#8f4700}.c{fill:#573a15}.r{fill:#1d4f73}.m{fill:#1f4538}.bus{fill:#1d2024}.b{fill:#453f68}
.k,.t{fill:#dcdcdc}.z{fill:#ffb4ab}.u,.q,.d,.i,.ask{stroke:#f0f0f0}.p,.done{stroke:#f0f0f0;fill:#f0f0f0}
.edge{fill:#ffcf9e}.g{stroke:#9fd3f5;fill:#9fd3f5}.v,.x{stroke:#ffb4ab}a:focus .y{stroke:#f0f0f0}a:target .y{fill:#5a5110}
";

/// What stands before the schemes of a page.
const PAGE_TOP: &str = "<!DOCTYPE html>
<html lang=\"en\">
<head>
<meta charset=\"utf-8\">
<title>Snoop</title>
<style>
:root{color-scheme:";

/// What stands behind the schemes, before the rules.
const PAGE_RULES: &str = "}
body{margin:0 0 12em;font:12px ui-monospace,Menlo,Consolas,\"DejaVu Sans Mono\",monospace}
svg{display:block;margin:0 0 24px;break-inside:avoid}
svg:has(a:target)~svg a{opacity:.12}
html{scroll-padding:56px 0 11em}
#names{position:sticky;top:0;z-index:1;margin-bottom:-56px;box-shadow:0 1px #808080}
pre{position:fixed;left:0;right:0;bottom:0;margin:0;padding:10px 12px;max-height:11em;overflow:auto;background:Canvas;border-top:2px solid;font-size:14px}
@media print{pre,#names{display:none}body,svg{margin:0}svg{width:auto;height:auto;max-width:100%;max-height:100vh}}
";

/// What stands between the rules and the first sheet.
const PAGE_MIDDLE: &str = "</style>
</head>
<body>
";

/// What stands behind the last sheet.
const PAGE_END: &str =
    "<pre aria-live=\"polite\">Click a row, or go through the steps with the arrow keys. Esc shows the whole run.</pre>
<script>
const rows = [...document.querySelectorAll(\"a[id]\")], notes = document.querySelector(\"pre\"), hint = notes.textContent;
const sheet = document.querySelector(\"svg\"), names = sheet.cloneNode();
names.id = \"names\";
names.setAttribute(\"height\", 56);
names.setAttribute(\"viewBox\", `0 0 ${names.getAttribute(\"width\")} 56`);
names.setAttribute(\"aria-hidden\", true);
for (const part of sheet.children) {
  if (part.matches(\".paper\") || part.matches(\"text\") && part.getAttribute(\"y\") < 56) names.append(part.cloneNode(true));
}
document.body.prepend(names);
const at = () => rows.findIndex(row => \"#\" + row.id === location.hash);
function show() {
  const row = rows[at()];
  notes.textContent = row ? row.querySelector(\"title\").textContent : hint;
  if (!row) return;
  row.scrollIntoView({block: \"center\"});
  const marks = [...row.querySelectorAll(\".o,.a,.i,.x,.p,.g,.v\")].map(mark => mark.getBoundingClientRect());
  if (!marks.length) return;
  const left = Math.min(...marks.map(mark => mark.left)), right = Math.max(...marks.map(mark => mark.right));
  const panels = [...names.querySelectorAll(\".t\"), row.querySelectorAll(\"text\")[2]].map(text => text.getBoundingClientRect().left);
  const start = Math.max(...panels.filter(x => x <= left)), end = Math.min(...panels.filter(x => x > left));
  const wide = document.documentElement.clientWidth, [from, to] = end - start > wide ? [left - 48, right + 48] : [start, end];
  scrollBy(from < 0 || to - from > wide ? from : Math.max(0, to - wide), 0);
}
addEventListener(\"hashchange\", show);
addEventListener(\"keydown\", event => {
  if (event.altKey || event.ctrlKey || event.metaKey || event.shiftKey) return;
  const by = {ArrowDown: 1, ArrowRight: 1, PageDown: 1, ArrowUp: -1, ArrowLeft: -1, PageUp: -1}[event.key];
  if (event.key === \"Escape\") location.replace(\"#all\");
  if (!by || !rows.length) return;
  event.preventDefault();
  location.replace(\"#\" + rows[Math.max(0, Math.min(rows.length - 1, at() + by))].id);
});
addEventListener(\"load\", show);
</script>
</body>
</html>
";

#[tactic(auto, unfolding(crate::specs::Styles::light_rules))]
fn push_light_rules(out: &mut Vec<u8>) -> Result<(), NoMemory>
    ensures { OnOk result (out.new.items ≡ out.old.items ++ light_rules) }
{
    push_text(out, LIGHT_RULES)
}

#[tactic(auto, unfolding(crate::specs::Styles::dark_rules))]
fn push_dark_rules(out: &mut Vec<u8>) -> Result<(), NoMemory>
    ensures { OnOk result (out.new.items ≡ out.old.items ++ dark_rules) }
{
    push_text(out, DARK_RULES)
}

fn push_dark_where_asked(out: &mut Vec<u8>) -> Result<(), NoMemory>
    ensures { OnOk result (out.new.items ≡ out.old.items ++ dark_where_asked) }
{
    push_text(out, "@media screen and (prefers-color-scheme:dark){\n")?;
    push_dark_rules(out)?;
    push_text(out, "}\n")
}

/// Appends the rules for a theme.
pub(crate) fn push_style(out: &mut Vec<u8>, theme: Theme) -> Result<(), NoMemory>
    ensures { OnOk result (out.new.items ≡ out.old.items ++ style theme) }
{
    push_light_rules(out)?;
    match theme {
        Theme::Light => Ok(()),
        Theme::Dark => push_dark_rules(out),
        Theme::Auto => push_dark_where_asked(out),
    }
}

fn push_schemes(out: &mut Vec<u8>, theme: Theme) -> Result<(), NoMemory>
    ensures { OnOk result (out.new.items ≡ out.old.items ++ schemes theme) }
{
    match theme {
        Theme::Auto => push_text(out, "light dark"),
        Theme::Light => push_text(out, "light"),
        Theme::Dark => push_text(out, "dark"),
    }
}

#[tactic(auto, unfolding(crate::specs::Styles::page_top))]
fn push_page_top(out: &mut Vec<u8>) -> Result<(), NoMemory>
    ensures { OnOk result (out.new.items ≡ out.old.items ++ page_top) }
{
    push_text(out, PAGE_TOP)
}

#[tactic(auto, unfolding(crate::specs::Styles::page_rules))]
fn push_page_rules(out: &mut Vec<u8>) -> Result<(), NoMemory>
    ensures { OnOk result (out.new.items ≡ out.old.items ++ page_rules) }
{
    push_text(out, PAGE_RULES)
}

#[tactic(auto, unfolding(crate::specs::Styles::page_middle))]
fn push_page_middle(out: &mut Vec<u8>) -> Result<(), NoMemory>
    ensures { OnOk result (out.new.items ≡ out.old.items ++ page_middle) }
{
    push_text(out, PAGE_MIDDLE)
}

/// Appends all that stands before the first sheet of a page.
pub(crate) fn push_page_head(out: &mut Vec<u8>, theme: Theme) -> Result<(), NoMemory>
    ensures { OnOk result (out.new.items ≡ out.old.items ++ page_head theme) }
{
    push_page_top(out)?;
    push_schemes(out, theme)?;
    push_page_rules(out)?;
    push_style(out, theme)?;
    push_page_middle(out)
}

/// Appends what stands behind the last sheet of a page.
#[tactic(auto, unfolding(crate::specs::Styles::page_end))]
pub(crate) fn push_page_end(out: &mut Vec<u8>) -> Result<(), NoMemory>
    ensures { OnOk result (out.new.items ≡ out.old.items ++ page_end) }
{
    push_text(out, PAGE_END)
}
