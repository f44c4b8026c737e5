// The page to explore a history: what stands before, between and behind its data. Neither the looks nor the script is part of what
// is proved. The script draws the data that it finds and asks for nothing from outside; bench/check_page.py uses it in a browser.

/// The page up to the lines of the history.
pub const HEAD: &str = r##"<!doctype html>
<html lang=en><meta charset=utf-8><meta name=viewport content="width=device-width"><title>omid history</title>
<meta http-equiv=Content-Security-Policy content="default-src 'none'; style-src 'unsafe-inline'; script-src 'unsafe-inline'">
<style>
:root{--page:#fff;--text:#1f2328;--dim:#4d555e;--rule:#d0d7de;--panel:#f3f5f7;--own:#0a4f9e;--done:#125c2b;--grant:#6438a8;--bad:#a3180f;
--mark:#7d4600;--step:#57606a;--letter:#fff;--committed:#d7f5de;--committed-edge:#1a6b34;--refused:#fdeceb;--refused-edge:#b3261e;
--aborted:#eaeef2;--aborted-edge:#57606a;--dead:#f4edfc;--dead-edge:#6e3fb8;--open:#fff6cf;--open-edge:#7d5200;--lease:#e4effb;
--hatch:#dc8f8a;--cross:#bfa2e3;color-scheme:light dark}
@media(prefers-color-scheme:dark){:root{--page:#0d1117;--text:#e6edf3;--dim:#a8b1bb;--rule:#30363d;--panel:#161b22;--own:#7cbcff;
--done:#6bd484;--grant:#cfadff;--bad:#ff9d96;--mark:#f0b35a;--step:#a8b1bb;--letter:#0d1117;--committed:#12331d;--committed-edge:#56c26d;
--refused:#331615;--refused-edge:#ff8f88;--aborted:#23282f;--aborted-edge:#a8b1bb;--dead:#251a38;--dead-edge:#c8a6ff;--open:#33290b;
--open-edge:#d9a53a;--lease:#13233a;--hatch:#7a3733;--cross:#5d4489}}
*{box-sizing:border-box}
body{margin:0;height:100vh;display:grid;grid-template:auto minmax(0,1fr)/minmax(0,1fr) 360px;background:var(--page);color:var(--text);font:13px/1.45 system-ui,sans-serif}
header{grid-column:1/3;display:flex;flex-wrap:wrap;gap:8px 12px;align-items:center;padding:8px 12px;border-bottom:1px solid var(--rule)}
label{display:inline-flex;gap:5px;align-items:center}input,button{font:inherit;color:inherit;accent-color:var(--own)}
input:not([type=checkbox],[type=range]),button{background:var(--panel);border:1px solid var(--dim);border-radius:6px;padding:3px 8px}
:focus-visible{outline:2px solid var(--own);outline-offset:1px}
::placeholder{color:var(--dim);opacity:1}#verdict{font-weight:600}#verdict.broken{color:var(--bad)}#fits{color:var(--dim)}
#view{overflow:auto;position:relative;}input[type=file]{width:96px;color:transparent!important;border:0!important;background:none!important;padding:0!important}::file-selector-button{color:var(--text)}#wide{position:relative}
#lanes{position:sticky;left:0;z-index:1;width:0;height:0}#drawn{position:absolute;top:0}svg{display:block}
#side{border-left:1px solid var(--rule);padding:0 12px 12px;overflow:auto;background:var(--panel)}
h2{font-size:13px;margin:12px 0 4px}pre,p{white-space:pre-wrap;overflow-wrap:anywhere;margin:4px 0}pre{font:12px/1.4 ui-monospace,monospace}
.line{font:12px/1.4 ui-monospace,monospace;display:block;width:100%;text-align:left;border:0!important;background:none!important;padding:2px 6px;overflow-wrap:anywhere}
.line:hover,.line.chosen{background:var(--rule)!important}
.key{display:inline-flex;gap:5px;align-items:center;margin:0 10px 4px 0;color:var(--dim)}
text{fill:var(--text)}.small{font-size:10px;fill:var(--dim)}.rule{stroke:var(--rule)}.sign{cursor:pointer}.letter{fill:var(--letter);font-weight:600}
.faint{opacity:.18}.ring{fill:none;stroke:var(--refused-edge);stroke-width:3}.now{fill:none;stroke:var(--text);stroke-width:2.5}
.bar{stroke-width:1.2}.aborted{stroke-dasharray:5 3}.dead{stroke-dasharray:2 2}.open{stroke-dasharray:9 4}
.committed{fill:var(--committed);stroke:var(--committed-edge)}.refused{fill:url(#hatch);stroke:var(--refused-edge)}
.aborted{fill:var(--aborted);stroke:var(--aborted-edge)}.dead{fill:url(#cross);stroke:var(--dead-edge)}
.open{fill:var(--open);stroke:var(--open-edge)}.lease{fill:var(--lease);stroke:none}
.arrow{fill:none;stroke:var(--step);marker-end:url(#tip)}.arrow.why{stroke:var(--refused-edge);stroke-width:1.6;marker-end:url(#why-tip)}
#tip{fill:var(--step)}#why-tip{fill:var(--refused-edge)}
@media(max-width:760px){body{grid-template:auto minmax(0,1fr) 38vh/minmax(0,1fr)}header{grid-column:1}#side{border-left:0;border-top:1px solid var(--rule)}}
</style>
<header><b>omid history</b><span id=verdict></span><button id=to-breach hidden>to the breach (b)</button>
<label>filter (/) <input id=filter size=24 placeholder="s1 k0 start=5 refused" title="words of an item's line, all of them; k1* for those that begin so"></label>
<span id=fits></span><label><input type=checkbox id=only> only these (o)</label><label><input type=checkbox id=steps> steps (s)</label>
<button id=back>previous refusal (p)</button><button id=next>next refusal (n)</button><button id=focus aria-pressed=false>one transaction (f)</button>
<label>zoom (+ -) <input type=range id=zoom min=3 max=90 value=26></label><label>another history <input type=file id=file></label></header>
<main id=view tabindex=0 aria-label="picture of the history"><div id=wide><div id=lanes></div><div id=drawn></div></div></main>
<aside id=side aria-live=polite></aside>
<script id=items type=text/plain>
"##;

/// What stands between the lines of the history and those of its bars.
pub const BARS: &str = "</script>\n<script id=bars type=text/plain>\n";

/// What stands between the lines of its bars and what is told of it.
pub const TOLD: &str = "</script>\n<script id=told type=text/plain>\n";

/// What stands behind that: the script that draws them.
pub const SCRIPT: &str = r##"</script>
<script>
'use strict'
// This script draws the data above, and holds no rule of what a history means: bars, verdict and witnesses are data.
const $ = id => document.getElementById(id)
const LEFT = 116, TOP = 46, ROW = 42
// of each kind of item its letter, its colour and what the legend says
const SIGNS = {'ask-begin': ['?', 'step', 'ask'], 'ask-commit': ['?', 'step', 'ask'], draw: ['#', 'grant', 'stamp drawn'], begin: ['B', 'own', 'begin'],
  write: ['W', 'own', 'write'], read: ['R', 'own', 'read'], placed: ['P', 'done', 'commit placed'], committed: ['C', 'done', 'commit told'],
  end: ['E', 'step', 'other end'], refused: ['!', 'bad', 'refusal'], mark: ['M', 'mark', 'mark'], take: ['T', 'grant', 'take'],
  renew: ['N', 'grant', 'renew'], extend: ['+', 'grant', 'extend'], fault: ['F', 'bad', 'fault'], crash: ['X', 'bad', 'crash'], vanish: ['V', 'bad', 'vanish']}
const KINDS = new Set(['committed', 'refused', 'aborted', 'dead', 'open', 'lease'])
const DOT = ['', 'step', 'step, note, tick'], MINOR = new Set(['step', 'note', 'accept', 'ask-begin', 'ask-commit'])
let drawnAt, items, bars, told, ringed, lanes, shown, columns, chosen, focused, placedOf, lit
const plain = text => text.replaceAll('&lt;', '<').replaceAll('&amp;', '&')
const safe = text => String(text).replaceAll('&', '&amp;').replaceAll('<', '&lt;').replaceAll('"', '&quot;')
const lines = text => text.split('\n').filter(line => line.trim())
const bounded = (least, most, value) => Math.max(least, Math.min(most, value))

// ---- what the lines say, by their words alone
function itemOf(line, at) {
  const words = line.split(' '), kind = words[0], has = kind == 'write' || kind == 'read'
  const field = name => (words.find(word => word.startsWith(name + '=')) || '').slice(name.length + 1)
  const lane = kind == 'tick' ? 'clock' : kind == 'placed' ? 'table' : kind == 'accept' || kind == 'draw' ? words[2] : words[1] || ''
  const start = field('start'), key = has ? words[3] : '', value = has ? words.at(-1) : ''
  const label = kind == 'tick' ? words[1] : kind == 'begin' ? start : kind == 'placed' ? field('commit') : kind == 'draw' ? field('commit') || start :
    kind == 'take' ? field('term') : key
  return {number: at + 1, line, words: new Set([...words, lane]), kind, lane, start, from: field('from'), key, value, label}
}
const NAMED = ['reading', 'term', 'epoch', 'start', 'commit', 'until', 'ceiling', 'count', 'from', 'by']
function jsonLine(line) {
  const of = JSON.parse(line), named = NAMED.filter(name => of[name] != null && name != 'from').map(name => name + '=' + of[name])
  return [of.kind, of.actor, of.session, of.node, ...named, of.key, of.from != null && 'from=' + of.from, of.to, of.note, of.name, of.store, of.how, of.text, of.value].filter(word => word || word === 0).join(' ')
}
function load(text, barText, toldText) {
  items = lines(text).map((line, at) => itemOf(line[0] == '{' ? jsonLine(line) : line, at))
  bars = lines(barText).map(line => { const [from, to, kind] = line.split(' '); return {from: +from, to: bounded(1, items.length, +to + 1), kind, opener: items[from - 1]} }).filter(bar => bar.opener && KINDS.has(bar.kind))
  placedOf = new Map(items.filter(item => item.kind == 'placed').map(item => [item.start, item.number]))
  readTold(lines(toldText))
  chosen = focused = null
  $('steps').checked = $('only').checked = false
  $('filter').value = ''
  settle()
  // a short history fills the view
  zoomTo(bounded(22, 48, ($('view').clientWidth - LEFT - 60) / shown.length))
  overview()
}
// what was found, and behind it for each refusal why it came and by which items
function readTold(said) {
  let of = null
  told = new Map; told.head = []
  for (const line of said) {
    const number = line.match(/^(\d+): /)
    if (number) told.set(of = +number[1], {why: [], by: []})
    else if (!of) told.head.push(line)
    else { const by = line.match(/^ +shown by (\d+): /); by ? told.get(of).by.push(+by[1]) : told.get(of).why.push(line.trim()) }
  }
  const pair = (told.head[0] || '').match(/^not isolated: \w+ (\d+) (\d+)/)
  ringed = pair ? [+pair[1], +pair[2]] : []
  $('verdict').textContent = told.head[0] || 'not judged: omid_view page does that'
  $('verdict').className = pair ? 'broken' : ''
  $('to-breach').hidden = !pair
}

// ---- which items have a column, and which are faint
const barOf = item => bars.find(bar => bar.kind != 'lease' && (item.start ? bar.opener.start == item.start : bar.opener.lane == item.lane && bar.from <= item.number && item.number <= bar.to))
// an item of the transaction with this start and bar: it names it, or it is a refusal of its session meanwhile
const isOf = (item, start, bar) => item.start == start || bar != null && item.kind == 'refused' && item.lane == bar.opener.lane && bar.from <= item.number && item.number <= bar.to
const barFrom = start => bars.find(bar => bar.kind != 'lease' && bar.opener.start == start)
function settle() {
  const words = $('filter').value.trim().split(/\s+/).filter(Boolean)
  const fits = (item, word) => word.endsWith('*') ? [...item.words].some(own => own.startsWith(word.slice(0, -1))) : item.words.has(word) || String(item.number) == word
  for (const item of items) item.faint = !words.every(word => fits(item, word)) || focused != null && !(isOf(item, focused.start, focused.bar) || item.from == focused.start)
  if (focused) for (const item of items) if (item.kind == 'refused' && !item.faint) for (const by of witnesses(item)) if (items[by - 1]) items[by - 1].faint = false
  const asked = words.length > 0 || focused != null
  // the transactions of which something fits
  lit = focused ? new Set([focused.start]) : words.length ? new Set(items.filter(item => !item.faint).map(item => item.start)) : null
  $('fits').textContent = asked ? items.filter(item => !item.faint).length + ' of ' + items.length : ''
  $('focus').setAttribute('aria-pressed', focused != null)
  const only = $('only').checked && asked, steps = $('steps').checked, kept = new Set([...ringed, chosen, ...(chosen ? witnesses(items[chosen - 1]) : [])])
  shown = items.filter(item => (steps || !MINOR.has(item.kind) || kept.has(item.number)) && !(only && item.faint))
  columns = new Int32Array(items.length + 2)
  for (const item of items) item.column = null
  shown.forEach((item, column) => { item.column = column; columns[item.number]++ })
  for (let number = 1; number <= items.length; number++) columns[number] += columns[number - 1]
  const rank = lane => lane == 'clock' ? 0 : /^[a-h]$/.test(lane) ? 1 : lane == 'table' ? 2 : lane == 'janitor' ? 4 : 3
  const names = [...new Set(shown.map(item => item.lane))].sort((a, b) => rank(a) - rank(b) || a.length - b.length || (a < b ? -1 : 1))
  lanes = new Map(names.map((lane, row) => [lane, TOP + ROW * row + 14]))
  draw()
}

// ---- the picture: only what is in view is drawn
const pitch = () => +$('zoom').value
const xOf = column => LEFT + 16 + pitch() * column
// the last column at or before an item
const columnAt = number => Math.max(0, columns[number] - 1)
const laneName = lane => /^[a-h]$/.test(lane) ? 'node ' + lane : /^s\d+$/.test(lane) ? 'session ' + lane.slice(1) : lane == 'table' ? 'commit table' : lane
const DEFS = `<defs><marker id=tip viewBox="0 0 8 8" refX=7 refY=4 markerWidth=7 markerHeight=7 orient=auto><path d="M0 0L8 4L0 8z"/></marker>
<marker id=why-tip viewBox="0 0 8 8" refX=7 refY=4 markerWidth=6 markerHeight=6 orient=auto><path d="M0 0L8 4L0 8z"/></marker>
<pattern id=hatch width=6 height=6 patternUnits=userSpaceOnUse patternTransform="rotate(45)"><rect width=6 height=6 fill="var(--refused)"/><path d="M1 0V6" stroke="var(--hatch)" stroke-width=2 /></pattern>
<pattern id=cross width=6 height=6 patternUnits=userSpaceOnUse><rect width=6 height=6 fill="var(--dead)"/><path d="M0 0L6 6M6 0L0 6" fill=none stroke="var(--cross)"/></pattern></defs>`
function draw() {
  const view = $('view'), wide = Math.max(view.clientWidth, xOf(shown.length) + 40), high = TOP + ROW * lanes.size + 4
  $('wide').style.width = wide + 'px'; $('wide').style.height = high + 'px'
  const left = view.scrollLeft, width = view.clientWidth, step = pitch(), X = column => xOf(column) - left
  const first = Math.max(0, Math.floor((left - LEFT) / step) - 2), seen = shown.slice(first, Math.ceil((left + width - LEFT) / step) + 2)
  let svg = DEFS
  for (const y of lanes.values()) svg += `<line class=rule x1=0 x2=${width} y1=${y} y2=${y} />`
  for (const bar of bars) svg += barText(bar, first, first + seen.length, X, width)
  for (const item of seen) svg += arrowsTo(item, X, step)
  for (const item of seen) svg += signText(item, X(item.column), lanes.get(item.lane), step)
  drawnAt = step
  $('drawn').style.left = left + 'px'
  $('drawn').innerHTML = `<svg role=img aria-label="${seen.length} of ${items.length} items" width=${width} height=${high} font-size=11 font-family=system-ui,sans-serif text-anchor=middle>${svg}</svg>`
  $('lanes').innerHTML = `<svg width=${LEFT - 6} height=${high} style="background:var(--page)" font-size=12 font-weight=600>` +
    [...lanes].map(([lane, y]) => `<text x=8 y=${y + 4}>${safe(laneName(lane))}</text>`).join('') + '</svg>'
}
function barText(bar, first, last, X, width) {
  const from = columnAt(bar.from), to = columnAt(bar.to), y = lanes.get(bar.opener.lane)
  const isFaint = lit != null && bar.kind != 'lease' && !lit.has(bar.opener.start)
  if (to < first || from > last || y == null || $('only').checked && isFaint) return ''
  const x1 = Math.max(X(from) - 12, -20), x2 = Math.min(X(to) + 12, width + 20)
  return `<rect class="bar ${bar.kind}${isFaint ? ' faint' : ''}" x=${x1} y=${y - 13} width=${Math.max(8, x2 - x1)} height=26 rx=7><title>${bar.kind}: ${safe(bar.opener.line)}</title></rect>`
}
function arrowsTo(item, X, step) {
  let svg = ''
  for (const by of witnesses(item)) {
    const other = items[by - 1], isOn = chosen == item.number || chosen == by
    if (!other || other.column == null || step < 9 && !isOn) continue
    const x1 = X(other.column), x2 = X(item.column), y1 = lanes.get(other.lane), y2 = lanes.get(item.lane)
    const bend = y1 == y2 ? -30 : 0, r = step < 11 ? 4 : 9, end = y2 + (y1 == y2 || y1 < y2 ? -r : r), middle = (y1 + y2) / 2 + bend
    svg += `<path class="arrow${item.kind == 'refused' ? ' why' : ''}${chosen && !isOn || item.faint ? ' faint' : ''}" d="M${x1} ${y1}C${x1} ${middle} ${x2} ${middle} ${x2} ${end}" />`
  }
  return svg
}
function signText(item, x, y, step) {
  const [letter, colour] = SIGNS[item.kind] || DOT, isSmall = !letter || step < 11
  const label = item.kind == 'take' ? (step >= 44 ? 'term ' : 't') + item.label : step >= 60 && item.key ? item.key + (item.kind == 'read' && !item.from ? ' none' : (item.kind == 'write' ? '=' : ' ') + (item.value.length > 6 ? item.value.slice(0, 4) + '..' : item.value)) : item.label
  return `<g class="sign${item.faint ? ' faint' : ''}${chosen == item.number ? ' chosen' : ''}" data-number=${item.number}><title>${item.number}: ${safe(item.line)}</title>` +
    (ringed.includes(item.number) ? `<circle class=ring cx=${x} cy=${y} r=14 />` : '') + (chosen == item.number ? `<circle class=now cx=${x} cy=${y} r=${isSmall ? 6 : 10.5} />` : '') +
    `<circle cx=${x} cy=${y} r=${isSmall ? bounded(1.5, 4, step / 2) : 8.5} fill="var(--${colour})" />` + (isSmall ? '' : `<text class=letter x=${x} y=${y + 4}>${letter}</text>`) +
    (step >= 22 && label ? `<text class=small x=${x} y=${y + 24}>${safe(label)}</text>` : '') +
    (item.column % (step >= 34 ? 1 : step >= 9 ? 5 : 20) == 0 ? `<text class=small x=${x} y=18>${item.number}</text>` : '') + '</g>'
}

// ---- beside the picture: an item's line, what shows it, and its transaction
// what shows a refusal is told; a read names the transaction that it read from
function witnesses(item) {
  if (told.has(item.number)) return told.get(item.number).by
  if (item.kind != 'read' || !item.from) return []
  if (item.from == item.start) { const own = items.findLast(of => of.number < item.number && of.kind == 'write' && of.start == item.start && of.key == item.key); return own ? [own.number] : [] }
  const number = placedOf.get(item.from)
  return number < item.number ? [number] : []
}
const lineOf = number => `<button class="line${number == chosen ? ' chosen' : ''}" data-number=${number}>${number}: ${safe(items[number - 1].line)}</button>`
const part = (head, numbers) => numbers.length ? `<h2>${head}</h2>` + numbers.slice(0, 200).map(lineOf).join('') + (numbers.length > 200 ? `<p>and ${numbers.length - 200} more</p>` : '') : ''
const found = () => told.head.length ? `<h2>What was found</h2>` + told.head.map(line => { const at = line.match(/^ *(\d+): /); return at && items[at[1] - 1] ? lineOf(+at[1]) : `<p>${safe(line.trim())}</p>` }).join('') : ''
function legend() {
  const kinds = new Map(items.map(item => { const sign = SIGNS[item.kind] || DOT; return [sign[2], sign] })), ends = [...new Set(bars.map(bar => bar.kind))]
  return '<h2>Signs</h2>' + [...kinds.values()].map(([letter, colour, meaning]) => `<span class=key><svg width=18 height=18 font-size=11 text-anchor=middle aria-hidden=true><circle cx=9 cy=9 r=${letter ? 8.5 : 4} fill="var(--${colour})" /><text class=letter x=9 y=13>${letter}</text></svg>${meaning}</span>`).join('') +
    (ends.length ? '<h2>Bars</h2>' : '') + ends.map(kind => `<span class=key><svg width=26 height=16 aria-hidden=true><rect class="bar ${kind}" x=1 y=1 width=24 height=14 rx=5 /></svg>${kind}</span>`).join('')
}
function overview() {
  const count = kind => items.filter(item => item.kind == kind).length
  $('side').innerHTML = `<h2>${items.length} items</h2><p>${count('begin')} transactions began, ${count('placed')} committed. Refusals: ${count('refused')}.</p>` + found() + legend() +
    '<h2>Keys</h2><p>Left and right: the items one by one. n, p: refusals. b: the breach. f: one transaction. o: only what fits. s: steps. +, -: zoom. /: filter. Escape: all again. A history or a page can be dropped here.</p>'
}
function choose(number, brings) {
  const item = items[number - 1]
  if (!item) return
  const inSide = $('side').contains(document.activeElement)
  chosen = number
  if ($('only').checked && item.faint) $('only').checked = false
  if ([number, ...witnesses(item)].some(at => items[at - 1] && items[at - 1].column == null)) settle()
  const start = startOf(item), why = told.get(number)
  const reads = start ? items.filter(of => of.from == start && of.start != start).map(of => of.number) : []
  $('side').innerHTML = part(`Item ${number}`, [number]) + (why ? why.why.map(line => `<p>${safe(line)}</p>`).join('') : '') + part(item.kind == 'refused' ? 'Shown by' : 'Read from', witnesses(item)) +
    (ringed.includes(number) ? found() : '') + (start ? part(`Transaction ${safe(start)}`, items.filter(of => isOf(of, start, barFrom(start))).map(of => of.number)) + part('Read by', reads) : '')
  if (inSide) $('side').querySelector('.line').focus()
  if (brings) $('view').scrollLeft = xOf(item.column) - $('view').clientWidth / 2
  draw()
}
function startOf(item) { const bar = barOf(item); return item.start || bar && bar.opener.start || '' }

// ---- what the buttons and keys do
const step = (all, ahead) => { const at = chosen || (ahead ? 0 : items.length + 1); return (ahead ? all.find(item => item.number > at) || all[0] : all.findLast(item => item.number < at) || all.at(-1)) }
function toRefusal(ahead) { const to = step(items.filter(item => item.kind == 'refused' && !(item.faint && $('filter').value)), ahead); if (to) choose(to.number, true) }
function neighbour(ahead) { const to = step(shown.filter(item => !item.faint), ahead); if (to) choose(to.number, true) }
// both items of the verdict in view
function toBreach() {
  if (!ringed.length) return
  if ($('only').checked) { $('only').checked = false; settle() }
  choose(ringed[0], false)
  const [one, other] = ringed.map(number => items[number - 1].column), wide = $('view').clientWidth
  zoomTo(bounded(5, 64, (wide - LEFT - 80) / (Math.abs(other - one) + 1)))
  $('view').scrollLeft = (xOf(one) + xOf(other) - wide - LEFT) / 2
  draw()
}
function focusOn() {
  const start = focused == null && chosen ? startOf(items[chosen - 1]) : ''
  focused = start ? {start, bar: barFrom(start)} : null
  settle()
}
function zoomTo(value) {
  const view = $('view'), x = chosen && items[chosen - 1].column != null ? xOf(items[chosen - 1].column) : view.scrollLeft + view.clientWidth / 2
  const offset = x - view.scrollLeft, column = (x - LEFT - 16) / pitch()
  $('zoom').value = value
  draw(); view.scrollLeft = xOf(column) - offset; draw()
}
function all() { $('filter').value = ''; $('only').checked = false; focused = chosen = null; $('view').focus(); settle(); overview() }
const turn = id => { $(id).checked = !$(id).checked; settle() }
const KEYS = {n: () => toRefusal(true), p: () => toRefusal(false), b: toBreach, f: focusOn, o: () => turn('only'), s: () => turn('steps'), ArrowRight: () => neighbour(true), ArrowLeft: () => neighbour(false),
  '+': () => zoomTo(pitch() * 1.25 + 1), '=': () => zoomTo(pitch() * 1.25 + 1), '-': () => zoomTo(pitch() / 1.25 - 1), '/': () => { $('filter').focus(); $('filter').select() }, Escape: all}
document.addEventListener('keydown', event => {
  const types = event.target.id == 'filter' || event.target.id == 'zoom' && event.key.startsWith('Arrow')
  if (types && event.key != 'Escape' || event.ctrlKey || event.metaKey || event.altKey || !KEYS[event.key]) return
  event.preventDefault(); KEYS[event.key]()
})
document.addEventListener('click', event => { const at = event.target.closest('[data-number]'); if (at) choose(+at.dataset.number, at.classList.contains('line')) })
let asked = 0
const later = () => { cancelAnimationFrame(asked); asked = requestAnimationFrame(draw) }
$('view').addEventListener('scroll', later); addEventListener('resize', later)
$('zoom').oninput = () => { const value = pitch(); $('zoom').value = drawnAt; zoomTo(value) }
$('filter').oninput = $('steps').onchange = $('only').onchange = settle
$('next').onclick = KEYS.n; $('back').onclick = KEYS.p; $('focus').onclick = focusOn; $('to-breach').onclick = toBreach

// ---- another history: its lines, with no bars and not judged; or another page, with all that stands in it
const partsOf = page => ['items', 'bars', 'told'].map(id => plain(page.getElementById(id).textContent))
async function open(file) {
  if (!file) return
  try {
    const text = await file.text(), page = text.startsWith('<!doctype html>') && new DOMParser().parseFromString(text, 'text/html')
    page ? load(...partsOf(page)) : load(text, '', '')
  } catch (fault) { $('side').innerHTML = `<h2>${safe(file.name)}</h2><p>no history, and no page of one: ${safe(fault.message)}</p>` }
}
$('file').onchange = event => open(event.target.files[0])
document.addEventListener('dragover', event => event.preventDefault())
document.addEventListener('drop', event => { event.preventDefault(); open(event.dataTransfer.files[0]) })
load(...partsOf(document))
// what the address asks for, as #filter=s1, #item=7, #zoom=40, or #breach
for (const word of decodeURIComponent(location.hash.slice(1)).split('&')) {
  const [name, value] = word.split(/=(.*)/)
  if (name == 'zoom') zoomTo(+value)
  if (name == 'filter') { $('filter').value = value; settle() }
  if (name == 'item') choose(+value, true)
  if (name == 'breach') toBreach()
}
</script></html>
"##;
