//! Its style sheet, made by tools/web_page of web/page.css. Change that.

pub(crate) const STYLE: &str = "\
:root { color-scheme: light dark; --line: #8886; --soft: #8882; --link: #0b5cad; --bad: #b3261e; --faint: #666; }
@media (prefers-color-scheme: dark) { :root { --link: #8ab8f0; --bad: #ff9d94; --faint: #aaa; } }
* { box-sizing: border-box; }
[hidden] { display: none !important; }
body { margin: 0; font: 15px/1.45 system-ui, sans-serif; }
header, main { padding: .6rem 1rem; }
header { border-bottom: 1px solid var(--line); }
header, #opening, #search, #counts { display: flex; flex-wrap: wrap; gap: .4rem 1rem; align-items: center; }
h1, h2 { font-size: 1.1rem; margin: 0 0 .4rem; }
header h1, header p { margin: 0; }
button, input, select, summary { font: inherit; max-width: 100%; min-width: 24px; min-height: 28px; }
summary { padding: .2rem 0; cursor: pointer; }
input[data-vr=CS], [name=modality] { text-transform: uppercase; }
:focus-visible { outline: 2px solid var(--link); outline-offset: 1px; }
.two { display: grid; grid-template-columns: minmax(0, 1fr) 18rem; gap: 1.2rem; }

#session { order: 1; margin-left: auto; }
.bad { color: var(--bad); }
#search { padding: .6rem 0 0; gap: .4rem .8rem; }
#counts { padding-top: .8rem; }
#counts label { flex: 1 1 8rem; max-width: 16rem; }
meter { display: block; width: 100%; }

#panel { overflow-x: auto; }
[role=tablist] { display: flex; border-bottom: 1px solid var(--line); }
[role=tab] { border: 1px solid transparent; border-bottom: 0; padding: .4rem .8rem; background: none; color: inherit; }
[role=tab][aria-selected=true] { border-color: var(--line); background: var(--soft); font-weight: 600; }
#new { display: none; }
table { border-collapse: collapse; width: 100%; }
caption { text-align: left; padding: .6rem 0 .3rem; font-weight: 600; }
th, td { text-align: left; vertical-align: baseline; padding: .3rem .4rem; border-bottom: 1px solid var(--line); }
td span:not(:only-child) { white-space: nowrap; }
td[data-label=Accession], td[data-label=Station] { overflow-wrap: anywhere; }
td[data-label=Actions] { min-width: 9rem; }
td button { margin: 1px .15rem 1px 0; padding: 1px .3rem; }
tbody tr:hover { background: var(--soft); }
.deeper { border: 0; padding: 0; background: none; color: var(--link); text-align: left; }

.fields label { display: grid; grid-template-columns: 7.5rem minmax(0, 1fr); gap: .5rem; margin: .25rem 0; align-items: center; }
fieldset { border: 1px solid var(--line); margin: 0 0 .6rem; min-width: 0; }
[aria-invalid=true] { outline: 2px solid var(--bad); }
[role=alert] { min-height: 1.4em; margin: .4rem 0; overflow-wrap: anywhere; }
dl { display: grid; grid-template-columns: max-content auto; gap: 0 1rem; }
dd { margin: 0; }
dialog { max-width: min(40rem, 90vw); }
#asked { white-space: pre-line; margin-top: 0; }

/* In a wide window the search stays open. */
@media (min-width: 40.01rem) { #finding summary { display: none; } }
/* In a window of one column the form is a tab. */
@media (max-width: 64rem) {
  .two { grid-template-columns: minmax(0, 1fr); }
  #new { display: block; }
  #institution:not(.entering) #form, .entering #panel { display: none; }
}
/* In a window that has no room for a table its rows are cards. Roles keep it a table for a screen reader, with its heads. */
@media (max-width: 56rem) {
  thead { position: absolute; width: 1px; height: 1px; overflow: hidden; clip-path: inset(50%); }
  thead tr, thead th { display: inline; }
  table, caption, tbody { display: block; }
  tbody tr { display: grid; grid-template-columns: repeat(auto-fill, minmax(8rem, 1fr)); gap: 0 .5rem; }
  tbody tr { border-bottom: 1px solid var(--line); padding: .4rem 0; }
  td { display: flex; gap: .4rem; align-items: baseline; border: 0; padding: .1rem 0; overflow-wrap: anywhere; }
  td:first-child, td[data-label=Patient], td[data-label=Description], td[data-label=Actions] { grid-column: span 2; }
  td:not([data-label=Actions])::before { content: attr(data-label); content: attr(data-label) / \"\"; color: var(--faint); flex: none; }
}
@media (max-width: 40rem) {
  body { font-size: 16px; }
  #session { margin: 0; order: 0; }
  [role=tab] { padding: .4rem .6rem; }
}
@media (prefers-reduced-motion: no-preference) { tbody tr { transition: background-color .15s; } }
";
