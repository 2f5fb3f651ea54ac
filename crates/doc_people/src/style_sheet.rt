//! The style sheet of the pages for people, the same for all of them.

/// Its text, of ASCII alone. With a change of any byte the number in the address that pages name it by is raised.
pub const STYLE_SHEET: &str = r##":root {
  color-scheme: light dark;
  --ground: #ffffff;
  --soft: #f4f6f8;
  --line: #d4dae1;
  --text: #1d2329;
  --faint: #55606b;
  --link: #0a58ca;
  --bad: #b3261e;
  --mark: #ffe98a;
  --bar: #22364f;
  --on-bar: #ffffff;
}
@media (prefers-color-scheme: dark) {
  :root {
    --ground: #14181d;
    --soft: #1d232a;
    --line: #39424c;
    --text: #e3e7eb;
    --faint: #a3adb8;
    --link: #8bb9ff;
    --bad: #ff9d94;
    --mark: #665200;
    --bar: #1b2635;
    --on-bar: #f2f5f8;
  }
}
* { box-sizing: border-box; }
html, body { display: block !important; max-width: none !important; margin: 0 !important; padding: 0 !important; }
[popover], dialog { display: none !important; }
html { -webkit-text-size-adjust: 100%; text-size-adjust: 100%; scroll-padding-top: 1rem; }
body {
  margin: 0;
  background: var(--ground);
  color: var(--text);
  font: 1rem/1.6 system-ui, -apple-system, "Segoe UI", Roboto, "Noto Sans", sans-serif;
  overflow-wrap: break-word;
}
a { color: var(--link); text-underline-offset: 0.15em; }
a:focus-visible, button:focus-visible, input:focus-visible, summary:focus-visible {
  outline: 3px solid var(--link);
  outline-offset: 2px;
}
a.missing { color: var(--bad); text-decoration: underline dashed; cursor: help; }
a.missing::after { content: "\2009?"; font-size: 0.8em; vertical-align: super; line-height: 0; }
.sr { position: absolute; width: 1px; height: 1px; margin: -1px; overflow: hidden; clip-path: inset(50%); }
body > .skip:first-child { position: absolute; left: -100rem; }
body > .skip:first-child:focus { z-index: 2; left: 0.5rem; top: 0.5rem; padding: 0.5rem 1rem; background: var(--ground); }

body > header {
  display: flex;
  flex-wrap: wrap;
  align-items: center;
  gap: 0.6rem 1.25rem;
  padding: 0.7rem max(1rem, calc((100% - 80rem) / 2 + 1rem));
  background: var(--bar);
  color: var(--on-bar);
}
body > :first-child + header { position: relative; z-index: 1; }
body > header a { color: inherit; text-decoration: none; }
body > header a:hover { text-decoration: underline; }
body > header a:focus-visible, body > header button:focus-visible, body > header input:focus-visible {
  outline-color: var(--on-bar);
}
body > header .site { margin-right: auto; font-size: 1.15rem; font-weight: 650; }
body > header nav { display: flex; gap: 1.25rem; font-size: 0.95rem; }
form[role="search"] { display: flex; gap: 0.4rem; }
input, button { font: inherit; border-radius: 0.4rem; border: 1px solid var(--line); }
input { min-width: 0; width: 14rem; padding: 0.25rem 0.6rem; background: var(--ground); color: var(--text); }
button { padding: 0.25rem 0.8rem; background: var(--soft); color: var(--text); cursor: pointer; }
input::placeholder { color: var(--faint); opacity: 1; }

.frame {
  display: grid;
  grid-template: "over over over" auto "tree main aside" 1fr / 15rem minmax(0, 1fr) 14rem;
  gap: 0.5rem 2.5rem;
  max-width: 80rem;
  margin: 0 auto;
  padding: 1rem 1rem 2rem;
}
.frame.bare { display: block; max-width: 44rem; }
.over { grid-area: over; display: flex; justify-content: space-between; gap: 1rem; min-height: 1.5rem; font-size: 0.9rem; }
.crumbs { color: var(--faint); }
.crumbs ol { display: flex; flex-wrap: wrap; margin: 0; padding: 0; list-style: none; }
.crumbs li:not(:last-child)::after { content: "\203A"; margin: 0 0.5rem; }
.crumbs a { color: inherit; text-decoration: none; }
.crumbs a:hover { text-decoration: underline; }
main { grid-area: main; min-width: 0; max-width: 46rem; }
.frame > aside { grid-area: aside; }
.tree { grid-area: tree; }
.tree, .frame > aside { align-self: start; font-size: 0.92rem; line-height: 1.45; }
.tree ul, .frame > aside ul { margin: 0; padding: 0; list-style: none; }
.tree p { margin: 0; }
.tree a, .frame > aside li a {
  display: block;
  padding: 0.28rem 0.6rem;
  border-left: 3px solid transparent;
  color: var(--text);
  text-decoration: none;
}
.tree a:hover, .frame > aside li a:hover { text-decoration: underline; }
.tree [aria-current] { border-color: var(--link); background: var(--soft); color: var(--link); font-weight: 600; }
.tree .top a { font-weight: 650; }
.tree .up a, .tree .all a { color: var(--faint); }
.tree .up a::before { content: "\2190\2002"; }
.tree .dir a::after { content: "\2002\203A"; color: var(--faint); }
.frame > aside h2 {
  margin: 0.3rem 0;
  padding: 0 calc(0.6rem + 3px);
  font-size: 0.8rem;
  letter-spacing: 0.04em;
  text-transform: uppercase;
  color: var(--faint);
}
.frame > aside ul + h2, .frame > aside p + h2 { margin-top: 1.5rem; }
.frame > aside p { margin: 0; padding: 0.28rem calc(0.6rem + 3px); }
.frame > aside .h3 a { padding-left: 1.4rem; }

main h1 { margin: 0.2rem 0 1rem; font-size: 2rem; line-height: 1.2; letter-spacing: -0.01em; }
main h2, main h3, main h4, main h5, main h6 { margin: 1.8em 0 0.5em; line-height: 1.3; }
main h2 { font-size: 1.4rem; padding-bottom: 0.25rem; border-bottom: 1px solid var(--line); }
main h3 { font-size: 1.15rem; }
main h4, main h5, main h6 { font-size: 1rem; }
main img { max-width: 100%; height: auto; }
figure { margin: 1.5rem 0; }
figcaption { margin-top: 0.4rem; color: var(--faint); font-size: 0.9rem; }
main hr { margin: 2rem 0; border: 0; border-top: 1px solid var(--line); }
main li + li { margin-top: 0.2rem; }
code, pre, kbd { font: 0.9em/1.5 ui-monospace, SFMono-Regular, Menlo, Consolas, "DejaVu Sans Mono", monospace; }
code { padding: 0.1em 0.3em; border-radius: 0.25rem; background: var(--soft); }
pre { padding: 0.8rem 1rem; overflow-x: auto; border: 1px solid var(--line); border-radius: 0.4rem; background: var(--soft); }
pre code { padding: 0; background: none; font-size: 1em; }
blockquote { margin: 1rem 0; padding: 0.1rem 1rem; border-left: 4px solid var(--line); color: var(--faint); }
table { border-collapse: collapse; }
article table { display: block; overflow-x: auto; }
th, td { padding: 0.4rem 1rem 0.4rem 0; border-bottom: 1px solid var(--line); text-align: left; vertical-align: top; }
.broken code { overflow-wrap: anywhere; }
thead th { color: var(--faint); font-size: 0.9rem; }
tbody th { padding-top: 1.2rem; }
article :is(th, td)[align="center"] { padding-left: 1rem; text-align: center; }
article :is(th, td)[align="right"] { padding-left: 1rem; text-align: right; }
article input[type="checkbox"] { width: auto; margin: 0 0.2em 0 0; }
mark { background: var(--mark); color: inherit; border-radius: 0.2rem; padding: 0 0.1em; }
.path { color: var(--faint); font-size: 0.88rem; font-weight: 400; }
.list { padding: 0; list-style: none; }
.list li, .hits > li { padding: 0.35rem 0; border-bottom: 1px solid var(--line); }
.list .dir a { font-weight: 650; }
.list .dir a::after { content: "/"; }
.hits { padding: 0; list-style: none; }
.hits > li > a { font-size: 1.1rem; font-weight: 600; }
.hits p { margin: 0.15rem 0 0.4rem; }
.found { color: var(--faint); }
.ask { max-width: 32rem; }
.ask input { flex: 1; width: 0; padding: 0.45rem 0.8rem; }
.pager { display: flex; gap: 1.5rem; margin-top: 1.5rem; }

body > footer {
  display: flex;
  flex-wrap: wrap;
  gap: 0.25rem 2rem;
  max-width: 80rem;
  margin: 0 auto;
  padding: 1rem;
  border-top: 1px solid var(--line);
  font-size: 0.88rem;
  color: var(--faint);
}
body > footer p { margin: 0; }
.tools { display: flex; gap: 1.25rem; margin: 0; white-space: nowrap; }
body > footer .tools { margin-left: auto; }
.menu { display: none; }

@media (min-width: 48.01rem) {
  .tree { position: sticky; top: 1rem; max-height: calc(100vh - 2rem); overflow-y: auto; }
}
@media (min-width: 72.01rem) {
  .frame > aside { position: sticky; top: 1rem; max-height: calc(100vh - 2rem); overflow-y: auto; }
}
@media (max-width: 72rem) {
  .frame {
    grid-template: "over over" auto "tree main" auto "tree aside" 1fr / 14rem minmax(0, 1fr);
  }
  .frame > aside { padding-top: 1rem; border-top: 1px solid var(--line); width: 100%; max-width: 46rem; }
}
@media (max-width: 48rem) {
  .frame { display: block; }
  .menu { display: inline; }
  body > header form { order: 1; flex: 1 1 100%; }
  body > header input { flex: 1; width: 0; padding: 0.45rem 0.8rem; }
  body > header nav { order: 2; }
  main h1 { font-size: 1.7rem; }
  .frame > aside, .tree { margin-top: 2rem; padding-top: 1rem; border-top: 1px solid var(--line); font-size: 1rem; }
  .tree a, .frame > aside li a { padding: 0.5rem 0.6rem; }
}
@media print {
  body > header, .skip, .crumbs, .tree, .frame > aside, .tools { display: none; }
  .frame, main { display: block; max-width: none; padding: 0; }
  pre { white-space: pre-wrap; }
  a { color: inherit; }
}
textarea {
  width: 100%;
  padding: 0.5rem 0.6rem;
  font: 0.9rem/1.5 ui-monospace, SFMono-Regular, Menlo, Consolas, "DejaVu Sans Mono", monospace;
  border-radius: 0.4rem;
  border: 1px solid var(--line);
  background: var(--ground);
  color: var(--text);
}
textarea:focus-visible { outline: 3px solid var(--link); outline-offset: 2px; }
textarea[readonly] { background: var(--soft); }
button:disabled { opacity: 0.5; cursor: default; }
#said { min-height: 1.6em; font-weight: 600; }
#other { margin: 1rem 0; padding: 0 1rem; border-left: 4px solid var(--bad); }
#other h2 { margin-top: 0; }
#shown { border: 1px solid var(--line); border-radius: 0.4rem; }
"##;
