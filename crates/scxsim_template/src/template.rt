//! Made by tools/page from web/.

/// The text of a page before its data.
pub const TOP: &str = "<!doctype html>\n<html lang=\"en\">\n<head>\n<meta charset=\"utf-8\">\n\
<meta name=\"viewport\" content=\"width=device-width, initial-scale=1\">\n<link rel=\"icon\" href=\"data:,\">\n\
<title>scxsim</title>\n<style>\n\
:root { color-scheme: light dark; --paper: #ffffff; --ink: #1b1f24; --faint: #5a626a; --line: #d9dde1; --band: #f3f5f7; --wrong: #b84a00; --fine: #00684a; --link: #005a8c; }\n\
@media (prefers-color-scheme: dark) {\n\
:root { --paper: #14171b; --ink: #e8eaed; --faint: #9aa3ab; --line: #343a41; --band: #1c2025; --wrong: #ff8f3f; --fine: #35c99b; --link: #79bdf0; }\n\
}\n* { box-sizing: border-box; }\nhtml, body { margin: 0; height: 100%; }\n\
body { display: grid; grid-template-columns: minmax(0, 1fr) 320px; grid-template-rows: auto auto auto auto minmax(0, 1fr); background: var(--paper); color: var(--ink); font: 13px/1.4 system-ui, \"DejaVu Sans\", sans-serif; }\n\
header, .tools, .legend { grid-column: 1 / -1; padding: 0 16px; }\n\
header { display: flex; align-items: baseline; gap: 4px 16px; padding-top: 12px; min-width: 0; }\n\
header > * { white-space: nowrap; overflow: hidden; text-overflow: ellipsis; min-width: 0; flex: 0 1 auto; }\n\
h1 { font-size: 20px; line-height: 1.2; margin: 0; font-weight: 650; }\nh2 { font-size: 13px; margin: 0 0 4px; }\n\
h3 { font-size: 12px; margin: 10px 0 4px; color: var(--faint); }\np { margin: 0 0 2px; }\n\
#ended { font-weight: 600; padding: 1px 8px; border: 1.5px solid currentColor; border-radius: 4px; flex-shrink: 0; max-width: 60%; }\n\
#facts { flex-shrink: 4; }\n\
#loading { position: fixed; inset: 40% 0 auto; margin: auto; width: max-content; padding: 8px 16px; background: var(--ink); color: var(--paper); border-radius: 4px; z-index: 4; }\n\
.fine { color: var(--fine); } .wrong { color: var(--wrong); } .faint, #facts, #found { color: var(--faint); }\n\
.tools { display: flex; flex-wrap: wrap; gap: 8px; padding-top: 8px; padding-bottom: 8px; align-items: center; }\n\
button, input { font: inherit; color: inherit; background: var(--band); border: 1px solid var(--faint); border-radius: 4px; padding: 4px 10px; min-height: 30px; flex: none; }\n\
button:hover { border-color: var(--ink); } button:disabled { opacity: .5; }\n\
button[aria-pressed=true] { background: var(--ink); color: var(--paper); }\n\
:focus-visible { outline: 2.5px solid var(--link); outline-offset: 1px; }\n\
input { width: 170px; background: var(--paper); } input[aria-invalid=true] { border-color: var(--wrong); }\n\
#found { min-width: 56px; } #merged { flex: 1 0 100%; }\n\
.legend { list-style: none; display: flex; flex-wrap: wrap; gap: 4px 16px; margin: 0; padding-bottom: 8px; font-size: 12px; max-height: 96px; overflow-y: auto; }\n\
.legend:focus-visible { outline-offset: -3px; }\n\
.legend li { display: flex; align-items: center; gap: 6px; flex: none; }\n\
.legend canvas { border: 1px solid var(--line); }\n\
#overview { position: relative; grid-row: 4; border-top: 1px solid var(--line); border-bottom: 1px solid var(--line); touch-action: none; cursor: grab; overflow: hidden; height: 36px; }\n\
#overview canvas { display: block; }\n\
#sight { position: absolute; top: 0; bottom: 0; border: 2px solid var(--link); min-width: 5px; }\n\
#scroller { position: relative; overflow-y: auto; overflow-x: hidden; min-height: 0; grid-row: 5; }\n\
#canvas { position: sticky; top: 0; display: block; touch-action: none; cursor: crosshair; }\n\
#canvas:focus-visible { outline-offset: -3px; }\n\
#spacer { width: 1px; position: absolute; top: 0; left: 0; pointer-events: none; }\n\
#nothing { position: absolute; top: 64px; right: 16px; padding: 4px 10px; background: var(--band); border: 1px solid var(--faint); border-radius: 4px; }\n\
aside { grid-row: 4 / 6; grid-column: 2; overflow-y: auto; border-left: 1px solid var(--line); border-top: 1px solid var(--line); padding: 12px 16px; min-height: 0; }\n\
section + section { margin-top: 16px; } table + p { margin-top: 4px; }\n\
table { border-collapse: collapse; width: 100%; font-size: 12px; font-variant-numeric: tabular-nums; }\n\
.long { display: block; } .long tbody { display: block; content-visibility: auto; contain-intrinsic-size: auto 900px; }\n\
.long thead { display: block; } .long tr { display: grid; grid-auto-flow: column; grid-template-columns: minmax(0, 1fr); grid-auto-columns: 62px; }\n\
.long td + td { padding-top: 5px; }\n\
th { text-align: left; vertical-align: bottom; font-weight: 600; color: var(--faint); border-bottom: 1px solid var(--line); padding: 2px; }\n\
td { padding: 2px 4px; border-bottom: 1px solid var(--line); overflow-wrap: anywhere; } .number, .number button { text-align: right; overflow-wrap: normal; }\n\
th button, td button, li button { background: none; border: 0; padding: 1px 2px; min-height: 24px; text-align: left; text-decoration: underline; text-underline-offset: 2px; overflow-wrap: anywhere; }\n\
th button { font-weight: 600; text-decoration-color: var(--line); overflow-wrap: normal; }\n\
th[aria-sort=ascending] button::after { content: \" \\25B4\"; } th[aria-sort=descending] button::after { content: \" \\25BE\"; }\n\
ol { margin: 0; padding-left: 20px; }\n\
#tip { position: fixed; pointer-events: none; background: var(--ink); color: var(--paper); border-radius: 4px; padding: 6px 10px; max-width: 320px; font-size: 12px; z-index: 3; }\n\
#live { position: absolute; width: 1px; height: 1px; overflow: hidden; clip-path: inset(50%); }\n\
kbd { font: 11px ui-monospace, \"DejaVu Sans Mono\", monospace; border: 1px solid var(--line); border-radius: 3px; padding: 0 4px; }\n\
@media (max-width: 900px) {\nbody { display: block; height: auto; }\n#scroller { height: 62vh; }\n\
aside { border-left: 0; }\nheader, .tools, .legend, aside { padding-left: 10px; padding-right: 10px; }\n\
header { padding-top: 6px; gap: 8px; } h1 { font-size: 16px; }\n\
.tools, .legend { padding-top: 4px; padding-bottom: 4px; }\n}\n@media (max-width: 600px) {\n\
.tools, .legend { flex-wrap: nowrap; overflow-x: auto; scrollbar-width: none; }\n\
input { width: 110px; } #found:empty { display: none; }\n#facts { display: none; }\n#ended { max-width: 70%; }\n}\n\
</style>\n</head>\n<body>\n<p id=\"loading\" role=\"status\">Reading the run &hellip;</p>\n<header>\n\
<h1 id=\"title\">scxsim</h1>\n<span id=\"ended\"></span>\n<span id=\"facts\"></span>\n</header>\n\
<div class=\"tools\" role=\"group\" aria-label=\"Find and move\">\n\
<input id=\"search\" type=\"search\" list=\"names\" placeholder=\"Find ( / )\" aria-label=\"Find a task, a group or a CPU\" aria-describedby=\"found\" aria-invalid=\"false\"><datalist id=\"names\"></datalist>\n\
<button id=\"previous\" type=\"button\" aria-label=\"Previous match\" disabled>&lsaquo;</button>\n\
<button id=\"next\" type=\"button\" aria-label=\"Next match\" disabled>&rsaquo;</button>\n\
<span id=\"found\" role=\"status\"></span>\n<button id=\"closer\" type=\"button\" aria-label=\"Zoom in\">+</button>\n\
<button id=\"wider\" type=\"button\" aria-label=\"Zoom out\">&minus;</button>\n\
<button id=\"whole\" type=\"button\">Whole run</button>\n\
<button id=\"worst\" type=\"button\">Next longest wait</button>\n\
<button id=\"ejection\" type=\"button\" hidden>Ejection</button>\n<p id=\"merged\" hidden></p>\n</div>\n\
<ul class=\"legend\" id=\"legend\" aria-label=\"Legend\" tabindex=\"0\"></ul>\n\
<div id=\"overview\" aria-hidden=\"true\"><canvas></canvas><div id=\"sight\"></div></div>\n<div id=\"scroller\">\n\
<div id=\"spacer\"></div>\n\
<canvas id=\"canvas\" tabindex=\"0\" role=\"application\" aria-label=\"Chart of the run: CPUs, queues, groups and tasks over time\" aria-describedby=\"keys\"></canvas>\n\
<p id=\"nothing\" role=\"status\" hidden></p>\n</div>\n<aside aria-label=\"Figures\">\n\
<section id=\"chosen\" tabindex=\"-1\" aria-label=\"Selection\"><p class=\"faint\">Click a wait, or drag over the axis, to see who ran meanwhile.</p></section>\n\
<section><h2>Longest waits</h2><ol id=\"waits\"></ol></section>\n\
<section><h2 id=\"span\"></h2><button id=\"all\" type=\"button\" hidden>Leave the range</button></section>\n\
<section><h2>Groups</h2><table id=\"groups\"></table></section>\n\
<section><h2>CPUs</h2><table id=\"cpus\"></table></section>\n<section id=\"keys\"><h2>Keys</h2>\n\
<p><kbd>&larr;</kbd> <kbd>&rarr;</kbd> pan, <kbd>+</kbd> <kbd>-</kbd> zoom, <kbd>0</kbd> whole run, <kbd>Home</kbd> <kbd>End</kbd> ends</p>\n\
<p><kbd>&uarr;</kbd> <kbd>&darr;</kbd> row, <kbd>,</kbd> <kbd>.</kbd> previous and next stretch, <kbd>Enter</kbd> fold, or show the stretch</p>\n\
<p><kbd>/</kbd> find, <kbd>n</kbd> <kbd>p</kbd> next and previous match, <kbd>r</kbd> range of what is in sight, <kbd>Esc</kbd> back</p>\n\
<p>The wheel zooms, with Shift it pans; over the names it scrolls. A drag over the axis, or with Shift, is a range.</p></section>\n\
<section><h2>Tasks</h2><table id=\"tasks\"></table></section>\n</aside>\n\
<div id=\"tip\" role=\"tooltip\" hidden></div>\n<div id=\"live\" aria-live=\"polite\"></div>\n";

/// The text of a page after its data.
pub const CODE: &str = "<script>\n\"use strict\";\nconst MOST_CPUS = 16;  // more fold at first\n\
const NOWHERE = 255, SEVERAL = 254, GLOBAL = 16, HELD = 17, BUILTIN = 18, PARKED = 19, LOCAL = 20, NO_QUEUE = 65535;\n\
const WHY_RUN = [\"the run was over\", \"it was stopped: its slice was used up and another came\", \"it went to sleep\",\n\
\"its group had used its quota, and it was parked\", \"\", \"\", \"\", \"this part of the run was over\"];\n\
const WHY_WAIT = [\"the run was over\", \"\", \"it went to sleep\", \"it was parked\", \"it ran\", \"it went to another queue\",\n\
\"its group had a new period\", \"this part of the run was over\"];\n\
const FAULTS = [\"the callback can't go on\", \"no such queue\", \"the task can't be inserted here, or not a second time\",\n\
\"by virtual time and in order of arrival into one queue\", \"by virtual time into a queue of the machine\", \"no such CPU\",\n\
\"flags other than 0 and 1\", \"the queue can't be created\"];\n\
const BEGAN = [\"\", \"it woke\", \"it was stopped\", \"it was let go\"];\n\
const element = (id) => document.getElementById(id);\nconst text = (id) => element(id).textContent;\n\
const clamp = (value, least, most) => Math.max(least, Math.min(most, value));\nfunction decode(base64) {\n\
if (Uint8Array.fromBase64) return Uint8Array.fromBase64(base64);\n\
const letters = atob(base64), bytes = new Uint8Array(letters.length);\n\
for (let at = 0; at < letters.length; at++) bytes[at] = letters.charCodeAt(at);\nreturn bytes;\n}\n\
function readRun() {\nconst head = JSON.parse(text(\"head\")), tail = JSON.parse(text(\"tail\"));\n\
const bytes = decode(text(\"stretches\").trim());\nelement(\"stretches\").remove();\n\
const words = new Uint32Array(bytes.buffer, bytes.byteOffset, bytes.length >> 2), count = words.length >> 2;\n\
const tasks = head.tasks.length, processors = head.processors;\n\
const run = { ...head, ...tail, count, begin: head.from, duration: head.to - head.from, isMerged: head.together !== undefined,\n\
taskStart: new Uint32Array(tasks + 1), cpuStart: new Uint32Array(processors + 1) };\n\
for (let i = 0; i < count; i++) {\nconst word = words[4 * i + 2], cpu = word >>> 16 & 255;\n\
run.taskStart[(word & 65535) + 1]++;\nif (cpu !== NOWHERE && !run.isMerged) run.cpuStart[cpu + 1]++;\n}\n\
for (let i = 0; i < tasks; i++) run.taskStart[i + 1] += run.taskStart[i];\n\
for (let i = 0; i < processors; i++) run.cpuStart[i + 1] += run.cpuStart[i];\n\
if (run.ended.at !== undefined) run.ended.at -= run.begin;\n\
for (const change of run.changes) change[0] -= run.begin;\nrun.changes.sort((one, other) => one[0] - other[0]);\n\
placeStretches(run, words);\nsumStretches(run);\nreturn run;\n}\nfunction placeStretches(run, words) {\n\
const { count, taskStart, cpuStart } = run, runs = cpuStart[run.processors];\nObject.assign(run, {\n\
from: new Uint32Array(count), length: new Uint32Array(count), queue: new Uint16Array(count),\n\
cpu: new Uint8Array(count), why: new Uint8Array(count),\n\
cpuFrom: new Uint32Array(runs), cpuLength: new Uint32Array(runs), cpuTask: new Uint16Array(runs),\n\
pieceWaited: new Uint16Array(run.isMerged ? count : 0), pieceParked: new Uint16Array(run.isMerged ? count : 0),\n});\n\
const nextTask = taskStart.slice(), nextCpu = cpuStart.slice();\nfor (let i = 0; i < count; i++) {\n\
const word = words[4 * i + 2], task = word & 65535, cpu = word >>> 16 & 255, at = nextTask[task]++;\n\
run.from[at] = words[4 * i] - run.begin;\nrun.length[at] = words[4 * i + 1];\nrun.cpu[at] = cpu;\n\
run.why[at] = word >>> 24;\nrun.queue[at] = words[4 * i + 3];\n\
if (cpu === SEVERAL) placePiece(run, at, words[4 * i + 1], words[4 * i + 3]);\n\
if (cpu !== NOWHERE && !run.isMerged) {\nconst place = nextCpu[cpu]++;\nrun.cpuFrom[place] = run.from[at];\n\
run.cpuLength[place] = words[4 * i + 1];\nrun.cpuTask[place] = task;\n}\n}\n}\n\
function placePiece(run, at, times, more) {\nrun.length[at] = times & 65535;\nrun.pieceParked[at] = times >>> 16;\n\
run.pieceWaited[at] = more >>> 16;\n}\n\
const ranIn = ({ cpu, queue, length }, i) => cpu[i] === SEVERAL ? queue[i] : cpu[i] === NOWHERE ? 0 : length[i];\n\
const waitedIn = ({ cpu, queue, length, pieceWaited }, i) =>\n\
cpu[i] === SEVERAL ? pieceWaited[i] : cpu[i] === NOWHERE && queue[i] !== PARKED ? length[i] : 0;\n\
const parkedIn = ({ cpu, queue, length, pieceParked }, i) =>\n\
cpu[i] === SEVERAL ? pieceParked[i] : cpu[i] === NOWHERE && queue[i] === PARKED ? length[i] : 0;\n\
function sumStretches(run) {\nconst { count, from } = run, wakes = [];\n\
for (const before of [\"ranBefore\", \"waitedBefore\", \"parkedBefore\", \"wakesBefore\"]) run[before] = new Uint32Array(count + 1);\n\
for (let i = 0; i < count; i++) {\nrun.ranBefore[i + 1] = run.ranBefore[i] + ranIn(run, i);\n\
run.parkedBefore[i + 1] = run.parkedBefore[i] + parkedIn(run, i);\n\
run.waitedBefore[i + 1] = run.waitedBefore[i] + waitedIn(run, i);\n\
if (isWake(run, i) && !run.isMerged) wakes.push(from[i]);\nrun.wakesBefore[i + 1] = wakes.length;\n}\n\
run.wakeTimes = Uint32Array.from(wakes);\nif (run.isMerged) sumPieces(run);\nsumRuns(run);\nsumGroups(run);\n\
sumQueues(run);\nlistWaits(run);\nfindWaits(run);\n}\nfunction sumPieces(run) {\n\
run.mergedBefore = new Uint32Array(run.count + 1);\n\
for (let i = 0; i < run.count; i++) run.mergedBefore[i + 1] = run.mergedBefore[i] + (run.cpu[i] === SEVERAL ? run.pieceWaited[i] : 0);\n\
}\nfunction sumRuns(run) {\nif (run.isMerged) return sumNoRuns(run);\n\
const { cpuFrom, cpuLength, cpuStart, processors, duration } = run, runs = cpuFrom.length;\n\
Object.assign(run, countWaits(run, () => true));\nrun.waitsOn = waitsOnCpus(run);\n\
for (const before of [\"cpuBefore\", \"cpuWaitedBefore\"]) run[before] = new Uint32Array(runs + 1);\n\
run.idleByQuota = 0;\nfor (let cpu = 0; cpu < processors; cpu++) {\n\
const { cpuBefore, cpuWaitedBefore } = run, { someWaited, onlyParked } = run.waitsOn[cpu];\n\
run.idleByQuota += onlyParked[duration];\nfor (let i = cpuStart[cpu]; i < cpuStart[cpu + 1]; i++) {\n\
const from = cpuFrom[i], until = from + cpuLength[i];\ncpuBefore[i + 1] = cpuBefore[i] + until - from;\n\
cpuWaitedBefore[i + 1] = cpuWaitedBefore[i] + someWaited[until] - someWaited[from];\n\
run.idleByQuota -= onlyParked[until] - onlyParked[from];\n}\n}\n\
run.idle = Array.from({ length: processors }, (_, cpu) => figuresOfCpu(run, cpu, 0, duration).waits);\n\
run.lost = lostTimes(run);\n}\nfunction sumNoRuns(run) {\n\
const [someWaited, onlyParked] = [0, 1].map(() => new Uint32Array(run.duration + 2));\n\
Object.assign(run, { waitsOn: [], idle: [], idleByQuota: 0, lost: { duration: run.duration, someWaited, onlyParked } });\n\
for (const before of [\"cpuBefore\", \"cpuWaitedBefore\"]) run[before] = new Uint32Array(1);\n}\n\
function lostTimes(run) {\n\
const { duration, waitsOn } = run, [someWaited, onlyParked] = [0, 1].map(() => new Uint32Array(duration + 2));\n\
for (const waits of new Set(waitsOn)) {\nconst idle = countIdle(run, (cpu) => waitsOn[cpu] === waits);\n\
for (let ms = 0, waited = 0, parked = 0; ms < duration; ms++) {\n\
someWaited[ms + 1] += waited += idle[ms] * (waits.someWaited[ms + 1] - waits.someWaited[ms]);\n\
onlyParked[ms + 1] += parked += idle[ms] * (waits.onlyParked[ms + 1] - waits.onlyParked[ms]);\n}\n}\n\
return { duration, someWaited, onlyParked };\n}\n\
function countIdle({ processors, duration, cpuFrom, cpuLength, cpuStart }, counts) {\n\
const idle = new Int32Array(duration + 1);\nfor (let cpu = 0; cpu < processors; cpu++) {\n\
if (!counts(cpu)) continue;\nidle[0]++;\n\
for (let i = cpuStart[cpu]; i < cpuStart[cpu + 1]; i++) { idle[cpuFrom[i]]--; idle[cpuFrom[i] + cpuLength[i]]++; }\n\
}\nfor (let ms = 1; ms <= duration; ms++) idle[ms] += idle[ms - 1];\nreturn idle;\n}\n\
const mayRunOn = ({ cpus }, cpu) => !cpus || cpus.includes(cpu);\nfunction waitsOnCpus(run) {\n\
const bound = run.tasks.filter(({ cpus }) => cpus), counted = new Map();\n\
return Array.from({ length: run.processors }, (_, cpu) => {\n\
const key = bound.map((task) => mayRunOn(task, cpu) ? 1 : 0).join(\"\");\n\
if (!counted.has(key)) counted.set(key, bound.length > 0 ? countWaits(run, (task) => mayRunOn(task, cpu)) : run);\n\
return counted.get(key);\n});\n}\n\
function countWaits({ duration, tasks, taskStart, from, length, cpu, queue }, counts) {\n\
const [waits, parks] = [0, 1].map(() => new Int32Array(duration + 2));\ntasks.forEach((task, number) => {\n\
if (!counts(task)) return;\nfor (let i = taskStart[number]; i < taskStart[number + 1]; i++) {\n\
if (cpu[i] !== NOWHERE) continue;\nconst change = queue[i] === PARKED ? parks : waits;\n\
change[from[i]]++; change[from[i] + length[i]]--;\n}\n});\n\
const [someWaited, onlyParked] = [0, 1].map(() => new Uint32Array(duration + 2));\n\
for (let ms = 0, waiting = 0, parked = 0; ms <= duration; ms++) {\nwaiting += waits[ms]; parked += parks[ms];\n\
someWaited[ms + 1] = someWaited[ms] + (waiting > 0 && ms < duration ? 1 : 0);\n\
onlyParked[ms + 1] = onlyParked[ms] + (waiting === 0 && parked > 0 && ms < duration ? 1 : 0);\n}\n\
return { duration, someWaited, onlyParked };\n}\nfunction sumGroups(run) {\nconst { groups, tasks, duration } = run;\n\
let cell = 1;\nwhile (groups.length * (duration / cell) > 4e6) cell *= 2;\n\
const cells = Math.ceil(duration / cell), row = cells + 1, all = groups.length * row;\n\
const sums = { cell, cells, row, ran: new Uint32Array(all), waited: new Uint32Array(all), parked: new Uint32Array(all),\n\
due: new Float64Array(all), busy: new Uint32Array(row) };\nlinkGroups(groups, tasks);\n\
for (let g = groups.length - 1; g >= 0; g--) {\n\
const slices = [sums.ran, sums.waited, sums.parked].map((sum) => sum.subarray(g * row, (g + 1) * row));\n\
if (groups[g].tasks.length) sumLeaf(run, groups[g], sums, slices);\nconst above = groups[g].parent;\n\
[sums.ran, sums.waited, sums.parked].forEach((sum, kind) => {\n\
const target = above >= 0 ? sum.subarray(above * row, (above + 1) * row) : kind === 0 ? sums.busy : null;\n\
if (target) for (let k = 0; k < row; k++) target[k] += slices[kind][k];\n});\n}\nsumDue(run, sums);\n\
run.sums = sums;\n}\nfunction linkGroups(groups, tasks) {\n\
for (const group of groups) Object.assign(group, { tasks: [], children: [], all: 0 });\n\
groups.forEach(({ parent }, g) => groups[parent]?.children.push(g));\n\
tasks.forEach(({ group }, number) => groups[group].tasks.push(number));\n\
for (const { group } of tasks) for (let g = group; g >= 0; g = groups[g].parent) groups[g].all++;\n\
groups.filter((group) => group.tasks.length).forEach((group, leaf) => { group.leaf = leaf; });\n\
for (const group of groups) {\nlet leaf = group;\nwhile (leaf.children.length) leaf = groups[leaf.children[0]];\n\
group.first = leaf.tasks[0] ?? 0;\n}\n}\nfunction sumLeaf(run, group, { cell, row }, slices) {\n\
const Numbers = run.isMerged ? Float64Array : Int32Array;\n\
const kinds = slices.map(() => ({ offsets: new Numbers(row + 1), counts: new Numbers(row + 1) }));\n\
for (const task of group.tasks) {\nfor (let i = run.taskStart[task]; i < run.taskStart[task + 1]; i++) {\n\
const kind = run.cpu[i] !== NOWHERE ? 0 : run.queue[i] === PARKED ? 2 : 1;\n\
if (run.cpu[i] === SEVERAL) addPiece(run, kinds, cell, i);\n\
else addInterval(kinds[kind], cell, run.from[i], run.from[i] + run.length[i]);\n}\n}\n\
slices.forEach((slice, kind) => {\nconst { offsets, counts } = kinds[kind];\n\
for (let k = 0, sum = 0, count = 0; k < row; count += counts[k], k++) slice[k] = Math.round(sum += cell * count + offsets[k]);\n\
});\n}\nfunction addPiece(run, kinds, cell, i) {\n\
const from = run.from[i], length = run.length[i] || 1, times = [ranIn(run, i), waitedIn(run, i), parkedIn(run, i)];\n\
times.forEach((time, kind) => { if (time > 0) addInterval(kinds[kind], cell, from, from + length, time / length); });\n\
}\nfunction sumDue({ groups, changes, begin }, sums) {\n\
const { cell, cells, row, ran, waited, parked, due, busy } = sums, left = changes.slice();\n\
const weights = groups.map((group) => group.weight), room = groups.map(() => Infinity);\n\
const limited = [...groups.keys()].filter((g) => groups[g].quota !== undefined);\n\
const families = [[...groups.keys()].filter((g) => groups[g].parent < 0), ...groups.map(({ children }) => children)];\n\
const numbers = () => new Float64Array(groups.length);\n\
const claims = { weights: numbers(), rooms: numbers(), parts: numbers(), isOpen: new Uint8Array(groups.length) };\n\
for (let k = 0; k < cells; k++) {\nfor (const g of limited) {\nconst { quota, period } = groups[g];\n\
if (k === 0) room[g] = quota * (1 - begin % period / period);\n\
else if (beginsPeriod(groups[g], begin + k * cell, cell)) room[g] = quota;\n}\n\
while (left.length && left[0][0] <= k * cell) { const [, g, weight] = left.shift(); weights[g] = weight; }\n\
for (let g = groups.length - 1; g >= 0; g--) {\n\
const at = g * row + k, isActive = ran[at + 1] > ran[at] || waited[at + 1] > waited[at] || parked[at + 1] > parked[at];\n\
claims.weights[g] = isActive ? weights[g] : 0;\n\
claims.rooms[g] = limited.length > 0 ? roomOf(claims, families[g + 1], isActive ? room[g] : 0) : Infinity;\n}\n\
shareOut(claims, families[0], busy[k + 1] - busy[k]);\nfor (let g = 0; g < groups.length; g++) {\n\
due[g * row + k] = claims.parts[g];\nroom[g] -= claims.parts[g];\n\
shareOut(claims, families[g + 1], claims.parts[g]);\n}\n}\ngroups.forEach((group, g) => {\nlet sum = 0;\n\
for (let k = 0; k < row; k++) [due[g * row + k], sum] = [sum, sum + due[g * row + k]];\n\
group.share = ran[g * row + cells] / (busy[cells] || 1);\ngroup.due = sum / (busy[cells] || 1);\n\
group.isCapped = parked[g * row + cells] > 0;\n});\n}\nfunction roomOf({ rooms }, within, own) {\n\
let sum = within.length > 0 ? 0 : Infinity;\nfor (const g of within) sum += rooms[g];\nreturn Math.min(own, sum);\n}\n\
function shareOut({ weights, rooms, parts, isOpen }, groups, amount) {\n\
let rest = amount, total = 0, isOver = false;\nfor (const g of groups) {\nparts[g] = 0;\n\
isOpen[g] = weights[g] > 0 && rooms[g] > 0 ? 1 : 0;\ntotal += isOpen[g] * weights[g];\n}\n\
while (!isOver && total > 0) {\nconst unit = rest / total;\nisOver = true;\nfor (const g of groups) {\n\
if (!isOpen[g] || rooms[g] >= weights[g] * unit) continue;\nparts[g] = rooms[g];\nisOpen[g] = 0;\nrest -= rooms[g];\n\
total -= weights[g];\nisOver = false;\n}\n}\n\
for (const g of groups) if (isOpen[g]) parts[g] = weights[g] * rest / total;\n}\n\
const beginsPeriod = ({ period }, at, cell) => Math.floor(at / period) > Math.floor((at - cell) / period);\n\
function sumQueues(run) {\nconst { duration, count, from, length, cpu, queue } = run, used = new Map();\n\
for (let i = 0; i < count; i++) if (length[i] > 0 && cpu[i] === NOWHERE && queue[i] !== PARKED) used.set(Math.min(queue[i], LOCAL), null);\n\
let cell = 1;\nwhile (used.size * (duration / cell) > 4e6) cell *= 2;\n\
const cells = Math.ceil(duration / cell), row = cells + 1;\n\
run.tracks = [...used.keys()].sort((one, other) => one - other).map((queue) => ({ queue, name: trackName(run, queue), cell, cells,\n\
sums: new Uint32Array(row), offsets: new Int32Array(row + 1), counts: new Int32Array(row + 1) }));\n\
for (const track of run.tracks) used.set(track.queue, track);\nfor (let i = 0; i < count; i++) {\n\
if (length[i] > 0 && cpu[i] === NOWHERE && queue[i] !== PARKED) addInterval(used.get(Math.min(queue[i], LOCAL)), cell, from[i], from[i] + length[i]);\n\
}\nfor (const track of run.tracks) sumTrack(track, row);\n}\n\
function addInterval({ offsets, counts }, cell, from, until, part = 1) {\n\
const first = Math.ceil(from / cell), last = Math.ceil(until / cell);\n\
offsets[first] += part * (first * cell - from); counts[first] += part;\n\
offsets[last] -= part * (last * cell - until); counts[last] -= part;\n}\nfunction sumTrack(track, row) {\n\
const { cell, sums, offsets, counts } = track;\n\
for (let k = 0, sum = 0, count = 0; k < row; count += counts[k], k++) sums[k] = sum += cell * count + offsets[k];\n\
track.most = 0;\nfor (let k = 1; k < row; k++) track.most = Math.max(track.most, (sums[k] - sums[k - 1]) / cell);\n\
delete track.offsets;\ndelete track.counts;\n}\n\
const trackName = (run, queue) => queue < LOCAL ? queueName(run, queue) : \"CPUs' own queues\";\n\
const isWake = ({ why }, i) => (why[i] & 48) === 16;\n\
const goesOn = ({ from, length, why }, i) => from[i] + length[i] === from[i + 1] && (why[i + 1] & 48) === 0;\n\
const hasWaitBefore = ({ from, why }, i) => (why[i] & 8) !== 0 && from[i] > 0;\n\
const isWait = ({ cpu, queue }, i) => cpu[i] === NOWHERE && queue[i] !== PARKED;\n\
const clockFrom = ({ from, why }, i) => Math.max(0, from[i] - (why[i] >> 6 & 1));\n\
const clockUntil = ({ from, length, why }, i) => from[i] + length[i] - (why[i] >> 7);\n\
function eachWait(run, task, act) {\nconst end = run.taskStart[task + 1];\n\
for (let i = run.taskStart[task], first = -1; i < end; i++) {\nif (hasWaitBefore(run, i)) act(i, -1);\n\
if (!isWait(run, i)) continue;\nif (first < 0) first = i;\n\
if (i + 1 < end && isWait(run, i + 1) && goesOn(run, i)) continue;\nact(first, i);\nfirst = -1;\n}\n}\n\
function listWaits(run) {\n\
const most = run.why.reduce((sum, _, i) => sum + isWait(run, i) + hasWaitBefore(run, i), 0);\n\
const [from, length, clock] = [0, 1, 2].map(() => new Uint32Array(most));\n\
const [less, more, isCut] = [0, 1, 2].map(() => new Uint8Array(most)), waits = { from, length, clock, less, more, isCut };\n\
let count = 0;\nrun.waitStart = new Uint32Array(run.tasks.length + 1);\nrun.tasks.forEach((_, task) => {\n\
eachWait(run, task, (first, last) => {\nconst hasStretch = last >= 0;\nfrom[count] = run.from[first];\n\
length[count] = hasStretch ? run.from[last] + run.length[last] - run.from[first] : 0;\n\
clock[count] = hasStretch ? clockFrom(run, first) : run.from[first] - 1;\n\
isCut[count] = hasStretch && isCutWait(run, task, first, last) ? 1 : 0;\n\
const later = hasStretch ? (run.why[first] >> 6 & 1) - (run.why[last] >> 7) : 1;\nless[count] = later < 0 ? 1 : 0;\n\
more[count++] = later > 0 && !(hasStretch && isLate(run, last)) ? 1 : 0;\n});\nrun.waitStart[task + 1] = count;\n});\n\
run.waits = Object.fromEntries(Object.entries(waits).map(([key, values]) => [key, values.slice(0, count)]));\n}\n\
const isLate = ({ why }, i) => (why[i] & 7) === 7;\n\
const isCutWait = (run, task, first, last) => isLate(run, last) || goesOnInPiece(run, task, first, last) ||\n\
run.begin > 0 && run.from[first] === 0 && (run.why[first] & 48) === 0;\n\
function goesOnInPiece({ cpu, why, taskStart }, task, first, last) {\n\
const wentOn = (why[last] & 7) === 5 && last + 1 < taskStart[task + 1] && cpu[last + 1] === SEVERAL;\n\
return wentOn || (why[first] & 48) === 0 && first > taskStart[task] && cpu[first - 1] === SEVERAL;\n}\n\
function waitIn({ waits, begin }, k, from, until) {\n\
const end = waits.from[k] + waits.length[k], bar = Math.min(until, end) - Math.max(from, waits.from[k]);\n\
if (bar < 0 || end > until) return Math.max(0, bar);\n\
return Math.max(0, bar - waits.less[k] + (from === 0 && begin === 0 ? waits.more[k] : 0));\n}\n\
function findWaits(run) {\nconst worst = [], long = [], { tasks, duration, ended } = run;\n\
run.longest = new Uint32Array(tasks.length);\nrun.waited = new Uint32Array(tasks.length);\n\
let total = 0, number = 0;\nconst { waits, waitStart } = run, keep = (task, k) => {\n\
const from = waits.from[k], until = from + waits.length[k], clock = waits.clock[k], length = waitIn(run, k, 0, duration);\n\
total += length; number++;\nrun.waited[task] += length;\nrun.longest[task] = Math.max(run.longest[task], length);\n\
const isStall = task === ended.task && from < ended.at && until >= ended.at;\n\
const isAmong = length > (run.together ?? 0) && (worst.length < 20 || length > worst[19].length);\n\
if (!isStall && !isAmong && length * 20 < duration) return;\n\
const wait = { task, from, until, clock, length, isStall, isCut: waits.isCut[k] > 0 };\n\
if (isStall || length * 20 >= duration) long.push(wait);\n\
if (isAmong) worst.push(wait) && worst.sort((one, other) => other.length - one.length).splice(20);\n};\n\
for (let task = 0; task < tasks.length; task++) for (let k = waitStart[task]; k < waitStart[task + 1]; k++) keep(task, k);\n\
run.worst = worst;\n\
frameWaits(run, long.filter(({ length, isStall }) => isStall || number > 4 && length > 0 && length * (number + 3) >= 4 * total));\n\
}\nfunction frameWaits(run, waits) {\nrun.framed = new Map();\nrun.framedOfGroup = new Map();\n\
for (const wait of waits) {\nwait.alarming = true;\n\
run.framed.set(wait.task, [...run.framed.get(wait.task) ?? [], wait]);\n\
for (let g = run.tasks[wait.task].group; g >= 0; g = run.groups[g].parent) {\n\
if (!(run.framedOfGroup.get(g)?.length >= wait.length)) run.framedOfGroup.set(g, wait);\n}\n}\n}\n\
function firstAfter(from, length, low, high, time) {\nwhile (low < high) {\nconst middle = (low + high) >>> 1;\n\
if (from[middle] + length[middle] > time) high = middle; else low = middle + 1;\n}\nreturn low;\n}\n\
function nextAfter(from, length, low, high, time) {\nlet step = 1, end = low;\n\
while (end < high && from[end] + length[end] <= time) { low = end + 1; end += step; step *= 2; }\n\
return firstAfter(from, length, low, Math.min(end, high), time);\n}\nfunction gridUntil(sums, values, start, time) {\n\
const place = Math.min(time / sums.cell, sums.cells), whole = Math.min(Math.floor(place), sums.cells - 1);\n\
return values[start + whole] + (place - whole) * (values[start + whole + 1] - values[start + whole]);\n}\n\
const waitedUntil = ({ someWaited, duration }, time) => gridUntil({ cell: 1, cells: duration }, someWaited, 0, time);\n\
const quotaUntil = ({ onlyParked, duration }, time) => gridUntil({ cell: 1, cells: duration }, onlyParked, 0, time);\n\
function queueName(run, queue) {\nif (queue < GLOBAL) return \"queue \" + (run.queues[queue] ?? queue);\n\
if (queue >= LOCAL && queue < LOCAL + 64) return \"the queue of CPU \" + (queue - LOCAL);\n\
return { [GLOBAL]: \"the global queue\", [HELD]: \"held by the policy\", [BUILTIN]: \"the built-in scheduler's queue\",\n\
[PARKED]: \"parked: its group's quota is used up\" }[queue] ?? \"no queue\";\n}\n\
const within = (sums, values, start, from, until) => gridUntil(sums, values, start, until) - gridUntil(sums, values, start, from);\n\
const lengthOfTrack = (track, from, until) => within(track, track.sums, 0, from, until);\n\
function eachRun(run, cpu, from, until, act) {\n\
const { cpuFrom, cpuLength, cpuStart } = run, last = cpuStart[cpu + 1];\n\
for (let i = firstAfter(cpuFrom, cpuLength, cpuStart[cpu], last, from); i < last && cpuFrom[i] < until; i++)\n\
act(run.cpuTask[i], Math.min(until, cpuFrom[i] + cpuLength[i]) - Math.max(from, cpuFrom[i]));\n}\n\
function whoRan(run, from, until) {\nconst sums = new Map();\n\
if (run.isMerged) run.tasks.forEach((_, task) => addRan(sums, task, timeOf(run, run.ranBefore, task, from, until)));\n\
for (let cpu = 0; cpu < run.processors; cpu++) eachRun(run, cpu, from, until, (task, ran) => addRan(sums, task, ran));\n\
return [...sums].map(([task, ran]) => ({ task, ran })).sort((one, other) => other.ran - one.ran);\n}\n\
const addRan = (sums, task, ran) => { if (ran > 0) sums.set(task, (sums.get(task) ?? 0) + ran); };\n\
function figuresOf(run, from, until) {\nconst { groups, sums } = run, ranOfGroup = new Float64Array(groups.length);\n\
const cpus = run.idle.map((_, cpu) => figuresOfCpu(run, cpu, from, until));\n\
const tasks = run.tasks.map(({ group }, task) => {\nconst figures = figuresOfTask(run, task, from, until);\n\
for (let g = group; g >= 0; g = groups[g].parent) ranOfGroup[g] += figures.ran;\nreturn figures;\n});\n\
const busy = tasks.reduce((sum, { ran }) => sum + ran, 0) || 1;\n\
const ofGroups = groups.map((_, g) => ({ share: ranOfGroup[g] / busy, due: within(sums, sums.due, g * sums.row, from, until) / busy,\n\
isCapped: within(sums, sums.parked, g * sums.row, from, until) > 0 }));\nreturn { tasks, groups: ofGroups, cpus };\n\
}\nfunction figuresOfCpu(run, cpu, from, until) {\n\
const [busyBefore, waitedBefore] = busyUntil(run, cpu, from), [busyAfter, waitedAfter] = busyUntil(run, cpu, until);\n\
const { someWaited } = run.waitsOn[cpu], busy = busyAfter - busyBefore, waits = someWaited[until] - someWaited[from];\n\
return { busy, idle: until - from - busy, waits: waits - (waitedAfter - waitedBefore) };\n}\n\
function busyUntil({ waitsOn, cpuFrom, cpuLength, cpuStart, cpuBefore, cpuWaitedBefore }, cpu, time) {\n\
const { someWaited } = waitsOn[cpu];\n\
const last = cpuStart[cpu + 1], i = firstAfter(cpuFrom, cpuLength, cpuStart[cpu], last, time);\n\
const begun = i < last && cpuFrom[i] < time ? cpuFrom[i] : time;\n\
return [cpuBefore[i] + time - begun, cpuWaitedBefore[i] + someWaited[time] - someWaited[begun]];\n}\n\
function figuresOfTask(run, task, from, until) {\n\
const { waits, waitStart } = run, waited = run.isMerged ? timeOf(run, run.mergedBefore, task, from, until) : 0;\n\
const figures = { ran: timeOf(run, run.ranBefore, task, from, until), waited, longest: 0 };\n\
const end = waitStart[task + 1];\n\
for (let k = firstAfter(waits.from, waits.length, waitStart[task], end, from); k < end && waits.from[k] <= until; k++) {\n\
const length = waitIn(run, k, from, until);\nfigures.waited += length;\n\
figures.longest = Math.max(figures.longest, length);\n}\nreturn figures;\n}\n\
const timeOf = (run, before, task, from, until) => Math.round(timeUntil(run, before, task, until) - timeUntil(run, before, task, from));\n\
function timeUntil({ from, length, taskStart }, before, task, time) {\n\
const last = taskStart[task + 1], i = firstAfter(from, length, taskStart[task], last, time);\n\
return before[i] + (i < last ? partOf(length, before, i, Math.max(0, time - from[i])) : 0);\n}\n\
const partOf = (length, before, i, time) => (before[i + 1] - before[i]) * time / (length[i] || 1);\n\
const LIGHT = { paper: \"#ffffff\", ink: \"#1b1f24\", faint: \"#6a7178\", line: \"#d9dde1\", band: \"#f3f5f7\", link: \"#005a8c\", wrong: \"#d55e00\", wrongInk: \"#b84a00\", wrongPaper: \"#ffffff\",\n\
wait: \"#7d858d\", waitPaper: \"#ccd2d8\", parked: \"#8a6d00\", parkedPaper: \"#f6e9b2\", several: \"#4d5a68\",\n\
tasks: [\"#0072b2\", \"#e69f00\", \"#009e73\", \"#56b4e9\", \"#cc79a7\", \"#f0e442\"], inks: \"wbbbbb\" };\n\
const DARK = { paper: \"#14171b\", ink: \"#e8eaed\", faint: \"#9aa3ab\", line: \"#343a41\", band: \"#1c2025\", link: \"#79bdf0\", wrong: \"#ff7a1a\", wrongInk: \"#ff7a1a\", wrongPaper: \"#14171b\",\n\
wait: \"#98a2ac\", waitPaper: \"#454d56\", parked: \"#e6c84a\", parkedPaper: \"#4a4013\", several: \"#a3b1c0\",\n\
tasks: [\"#3d97d8\", \"#e69f00\", \"#1fb58a\", \"#8fd0f5\", \"#dd94bd\", \"#f0e442\"], inks: \"bbbbbb\" };\n\
const SHADES = 32, LEAST_CONTRAST = 1.5, EDGE_CONTRAST = 3;\nfunction packed(hex) {\n\
const value = parseInt(hex.slice(1), 16);\n\
return (0xff000000 | (value & 255) << 16 | value & 0xff00 | value >> 16) >>> 0;\n}\n\
function mixed(one, other, share) {\n\
const part = (shift) => Math.round((one >>> shift & 255) * (1 - share) + (other >>> shift & 255) * share) << shift;\n\
return (0xff000000 | part(16) | part(8) | part(0)) >>> 0;\n}\nfunction luminance(colour) {\n\
const linear = (part) => part <= 0.04045 ? part / 12.92 : ((part + 0.055) / 1.055) ** 2.4;\n\
const [red, green, blue] = [0, 8, 16].map((shift) => linear((colour >>> shift & 255) / 255));\n\
return 0.2126 * red + 0.7152 * green + 0.0722 * blue;\n}\nfunction contrast(one, other) {\n\
const [dark, light] = [luminance(one), luminance(other)].sort((a, b) => a - b);\n\
return (light + 0.05) / (dark + 0.05);\n}\nfunction firstMixture(one, other, paper, least) {\nlet share = 0;\n\
while (share < 1 && contrast(mixed(one, other, share), paper) < least) share += 0.01;\nreturn Math.min(1, share);\n}\n\
const edgeOf = (colour, ink, paper) => mixed(colour, ink, firstMixture(colour, ink, paper, EDGE_CONTRAST));\n\
function shadesOf(colour, paper) {\nconst least = firstMixture(paper, colour, paper, LEAST_CONTRAST);\n\
return Uint32Array.from({ length: SHADES + 1 }, (_, k) => k === 0 ? paper : mixed(paper, colour, least + (1 - least) * k / SHADES));\n\
}\n\
const hexOf = (colour) => \"#\" + [0, 8, 16].map((shift) => (colour >>> shift & 255).toString(16).padStart(2, \"0\")).join(\"\");\n\
function makePalette(dark) {\n\
const names = dark ? DARK : LIGHT, palette = { names, dark }, strength = dark ? 0.45 : 0.4;\n\
for (const [key, hex] of Object.entries(names)) if (hex[0] === \"#\") palette[key] = packed(hex);\n\
const { paper, ink } = palette;\npalette.fills = names.tasks.map(packed);\n\
palette.edges = palette.fills.map((colour) => edgeOf(colour, ink, paper));\n\
palette.tasks = palette.edges.map((edge) => shadesOf(edge, paper));\n\
palette.tints = palette.fills.map((colour) => mixed(paper, colour, strength));\n\
palette.faintFills = palette.fills.map((colour) => mixed(paper, colour, 0.25));\n\
palette.faintTasks = palette.faintFills.map((colour) => new Uint32Array(SHADES + 1).fill(colour));\n\
palette.taskInk = [...names.inks].map((letter) => letter === \"w\" ? \"#ffffff\" : \"#101418\");\n\
for (const key of [\"several\", \"wait\", \"parked\", \"wrong\"]) palette[key + \"Shades\"] = shadesOf(palette[key], paper);\n\
palette.faintShades = new Uint32Array(SHADES + 1).fill(mixed(paper, palette.several, 0.2));\nreturn palette;\n}\n\
const TILE = 24, WRONG_TILE = 17;\nconst PATTERNS = [() => false,\n\
(x, y) => (x + y) % 6 < 2, (x, y) => x % 4 < 2 && y % 4 < 2, (x, y) => (x - y + 48) % 6 < 2, (x) => x % 4 < 1,\n\
(x, y) => y % 3 < 1, (x, y) => (x + y) % 8 < 1 || (x - y + 48) % 8 < 1, (x, y) => x % 8 < 5 && y % 4 < 2,\n\
(x, y) => x % 6 < 1 || y % 4 < 1, (x) => x % 8 < 4, (x, y) => (x + y) % 12 < 2,\n\
(x, y) => (x % 8 < 2 && y % 8 < 2) || ((x + 4) % 8 < 2 && (y + 4) % 8 < 2), (x, y) => (y + Math.abs(x % 12 - 6)) % 6 < 2,\n\
(x, y) => (x % 8 < 4) !== (y % 8 < 4), (x) => x % 12 < 1 || x % 12 === 3, (x, y) => (x + y) % 12 < 7, (x, y) => (x - y + 48) % 12 < 2,\n\
(x, y) => (x + y) % 6 < 2.5, (x, y) => (x + 2 * (y % 6 < 3 ? y % 3 : 3 - y % 3)) % 12 < 4, (x, y) => y % 4 < 2,\n\
(x, y) => y % 4 === 0 || (x + (y >> 2) % 2 * 6) % 12 === 0, () => true];\n\
const TILES = PATTERNS.map((pattern) => Uint8Array.from({ length: TILE * TILE }, (_, at) =>\n\
pattern(at % TILE, Math.floor(at / TILE)) ? 1 : 0));\n\
const isLocal = (queue) => queue >= LOCAL && queue !== NO_QUEUE;\n\
const KIND_TILES = { [HELD]: 18, [BUILTIN]: 19, [PARKED]: 20 };\n\
const tileOf = (queue) => queue < GLOBAL ? 1 + queue : isLocal(queue) ? 21 : KIND_TILES[queue] ?? 0;\n\
const view = { from: 0, until: 1, scroll: 0, rows: [], folded: new Set(), row: 0, next: 0, labels: [],\n\
chosen: null, cursor: null, range: null };\n\
let run, palette, context, image, pixels, pixelsWide, pixelsHigh, ratio, high, low;\nconst AXIS = 34;\n\
const left = () => view.wide ? 156 : 96;\nconst plotLeft = () => Math.round(left() * ratio);\n\
const plotWidth = () => pixelsWide - plotLeft();\nconst perPixel = () => (view.until - view.from) / plotWidth();\n\
const toPixel = (time) => (time - view.from) / (view.until - view.from) * plotWidth();\n\
const letters = (number) => (number >= 26 ? letters(Math.floor(number / 26) - 1) : \"\") + String.fromCharCode(65 + number % 26);\n\
const kindOf = (i) => run.cpu[i] === SEVERAL ? 3 : run.cpu[i] !== NOWHERE ? 0 : run.queue[i] === PARKED ? 2 : 1;\n\
const isByTask = () => run.tasks.length <= 6 || run.groups.filter((group) => group.tasks.length).length === 1;\n\
const isFaint = (task) => view.chosen !== null && view.chosen.task !== task;\n\
const colourOf = (task) => (run.isByTask ? task : run.groups[run.tasks[task].group].leaf) % 6;\n\
function fill(x0, x1, y0, y1, colour) {\n\
const low = Math.max(0, y0), high = Math.min(pixelsHigh, y1), start = Math.max(0, x0), end = Math.min(pixelsWide, x1);\n\
if (end > start) for (let y = low; y < high; y++) pixels.fill(colour, y * pixelsWide + start, y * pixelsWide + end);\n\
}\nfunction makeBand() {\n\
const grain = Math.max(1, Math.round(ratio)), columns = Uint8Array.from({ length: pixelsWide }, (_, x) => Math.floor(x / grain) % TILE);\n\
const [paper, edge, ink] = [0, 1, 2].map(() => new Uint32Array(pixelsWide));\n\
return { grain, columns, paper, edge, ink, tile: new Uint8Array(pixelsWide), tiled: new Uint16Array(pixelsWide) };\n\
}\nfunction clearBands() {\nfor (const band of [high, low]) {\nband.hasTiles = band.hasEdges = false;\n\
for (const pixels of [band.paper, band.edge, band.tile]) pixels.fill(0);\n}\n}\nfunction putBand(band, y, high) {\n\
const { paper, edge } = band, low = Math.max(0, y), end = Math.min(pixelsHigh, y + high), wide = pixelsWide;\n\
if (low >= end) return;\nfor (let x = 0; x < wide; x++) if (paper[x] !== 0) pixels[low * wide + x] = paper[x];\n\
for (let at = low + 1; at < end; at++) pixels.copyWithin(at * wide, low * wide, (low + 1) * wide);\n\
if (band.hasTiles) putTiles(band, low, end);\nif (!band.hasEdges) return;\nfor (const at of [y, y + high - 1]) {\n\
if (at < low || at >= end) continue;\n\
for (let x = 0; x < wide; x++) if (edge[x] !== 0) pixels[at * wide + x] = edge[x];\n}\n}\n\
function putTiles({ tile, ink, grain, columns, tiled }, low, end) {\nlet count = 0;\n\
for (let x = 0; x < pixelsWide; x++) if (tile[x] !== 0) tiled[count++] = x;\nfor (let at = low; at < end; at++) {\n\
const start = at * pixelsWide, line = Math.floor(at / grain) % TILE * TILE;\nfor (let k = 0; k < count; k++) {\n\
const x = tiled[k];\nif (TILES[tile[x]][line + columns[x]] !== 0) pixels[start + x] = ink[x];\n}\n}\n}\n\
const runPart = (tall) => Math.round(tall * 0.6);\nfunction putBands(y, tall) {\nputBand(high, y, runPart(tall));\n\
putBand(low, y + runPart(tall), tall - runPart(tall));\n}\nfunction hatch(band, x, share, shades) {\n\
band.hasTiles = true;\nband.tile[x] = WRONG_TILE;\n\
band.ink[x] = shades[clamp(Math.round(share * SHADES), 6, SHADES)];\n}\nfunction shade(band, x, shades, share) {\n\
if (share > 0) band.paper[x] = shades[clamp(Math.round(share * SHADES), 1, SHADES)];\n}\n\
function drawIdle(waits, since, x0, x1, offset) {\n\
const hatchFor = (timeUntil, shades) => hatchIdle((time) => timeUntil(waits, time), shades, since, x0, x1, offset);\n\
if (run.idleByQuota > 0) hatchFor(quotaUntil, palette.parkedShades);\nhatchFor(waitedUntil, palette.wrongShades);\n}\n\
function hatchIdle(timeUntil, shades, since, x0, x1, offset) {\nconst step = perPixel();\n\
for (let x = x0, before = timeUntil(Math.max(since, view.from + x0 * step)); x < x1; x++) {\n\
const until = timeUntil(Math.min(run.duration, view.from + (x + 1) * step));\n\
if (until - before > 0.001 * step) hatch(high, offset + x, (until - before) / step, shades);\nbefore = until;\n}\n}\n\
function hatchColumn(waits, x, from, until, part) {\n\
const step = perPixel(), waited = waitedUntil(waits, until) - waitedUntil(waits, from);\n\
const parked = run.idleByQuota > 0 ? quotaUntil(waits, until) - quotaUntil(waits, from) : 0;\n\
if (waited > 0) hatch(high, x, Math.min(part, waited / step), palette.wrongShades);\n\
else if (parked > 0) hatch(high, x, Math.min(part, parked / step), palette.parkedShades);\n}\n\
function drawProcessor(cpu, y, tall) {\n\
const { cpuFrom, cpuLength, cpuTask, cpuBefore } = run, last = run.cpuStart[cpu + 1];\n\
const offset = plotLeft(), width = plotWidth(), step = perPixel();\nclearBands();\n\
let i = firstAfter(cpuFrom, cpuLength, run.cpuStart[cpu], last, view.from), x = 0;\nwhile (x < width) {\n\
const start = i < last ? (cpuFrom[i] - view.from) / step : width;\n\
const end = i < last ? (cpuFrom[i] + cpuLength[i] - view.from) / step : width;\nif (start >= x + 1) {\n\
const until = Math.min(width, Math.floor(start));\n\
drawIdle(run.waitsOn[cpu], i > run.cpuStart[cpu] ? cpuFrom[i - 1] + cpuLength[i - 1] : 0, x, until, offset);\n\
x = until;\n} else if (end - start >= 2) {\nconst to = Math.min(width, Math.max(x + 1, Math.round(end)));\n\
drawBar(offset + Math.max(x, Math.round(start)), offset + to, y, tall, cpuTask[i]);\nx = to; i++;\n} else {\n\
const begin = view.from + x * step, time = Math.min(run.duration, begin + step), next = nextAfter(cpuFrom, cpuLength, i, last, time);\n\
const after = cpuBefore[next] + (next < last ? Math.max(0, time - cpuFrom[next]) : 0);\n\
const share = (after - cpuBefore[i] - Math.max(0, begin - cpuFrom[i])) / step;\n\
shade(high, offset + x, ownShades(i, next, last), share);\n\
if (share < 0.9) hatchColumn(run.waitsOn[cpu], offset + x, begin, time, 1 - share);\nx++; i = next;\n}\n}\n\
putBand(high, y, tall);\n}\nfunction ownShades(i, next, last) {\n\
if (view.chosen) return chosenShades(i, next, last);\nif (next - i > 2) return palette.severalShades;\nlet best = i;\n\
for (let k = i; k <= next && k < last; k++) if (run.cpuLength[k] > run.cpuLength[best]) best = k;\n\
return palette.tasks[colourOf(run.cpuTask[best])];\n}\nfunction chosenShades(i, next, last) {\n\
const { task } = view.chosen;\n\
for (let k = i; k <= next && k < last; k++) if (run.cpuTask[k] === task) return palette.tasks[colourOf(task)];\n\
return palette.faintShades;\n}\nfunction drawBar(x0, x1, y, tall, task) {\n\
const colour = colourOf(task), gap = x1 - x0 >= 4 ? high.grain : 0, words = letters(task), faint = isFaint(task), end = x1 - gap;\n\
const ink = faint ? palette.faintFills[colour] : palette.edges[colour];\nhigh.paper.fill(ink, x0, end);\n\
high.edge.fill(ink, x0, end);\nhigh.hasEdges = true;\n\
if (end - x0 > 2 * high.grain) high.paper.fill((faint ? palette.faintFills : palette.fills)[colour], x0 + high.grain, end - high.grain);\n\
if (tall < 11 * ratio || (words.length * 8 + 6) * ratio > x1 - x0) return;\n\
view.labels.push([(x0 + end) / 2, y + tall / 2, words, faint ? palette.names.faint : palette.taskInk[colour]]);\n}\n\
function drawTask(task, y, tall) {\n\
const { from, length, cpu, queue } = run, last = run.taskStart[task + 1], runTall = runPart(tall);\n\
const offset = plotLeft(), width = plotWidth(), step = perPixel();\n\
const shades = (isFaint(task) ? palette.faintTasks : palette.tasks)[colourOf(task)];\nclearBands();\n\
const first = firstAfter(from, length, run.taskStart[task], last, view.from);\nlet i = first, x = 0;\n\
while (x < width && i < last) {\n\
const start = (from[i] - view.from) / step, end = (from[i] + length[i] - view.from) / step;\n\
if (start >= x + 1) { x = Math.min(width, Math.floor(start)); continue; }\nif (end - start >= 2) {\n\
const x0 = offset + Math.max(x, Math.round(start)), x1 = offset + Math.min(width, Math.max(x + 1, Math.round(end)));\n\
if (cpu[i] === SEVERAL) drawPiece(x0, x1, shades, i);\n\
else if (cpu[i] !== NOWHERE) drawBar(x0, x1, y, runTall, task);\nelse drawWait(x0, x1, queue[i]);\n\
x = x1 - offset; i++;\n} else {\n\
const time = Math.min(run.duration, view.from + (x + 1) * step), next = nextAfter(from, length, i, last, time);\n\
const begin = Math.max(0, view.from + x * step - from[i]), rest = next < last ? Math.max(0, time - from[next]) : 0;\n\
taskCell(offset + x, shades, { i, next, last, begin, rest, step });\nx++; i = next;\n}\n}\nputBands(y, tall);\n\
drawWakes(run.wakesBefore[first], run.wakesBefore[i], y + tall);\n}\nfunction drawWakes(first, last, y) {\n\
if ((last - first) * 12 * ratio > plotWidth()) return;\n\
for (let k = first; k < last; k++) if (run.wakeTimes[k] >= view.from) drawWake(plotLeft() + Math.round(toPixel(run.wakeTimes[k])), y);\n\
}\nfunction taskCell(x, shades, { i, next, last, begin, rest, step }) {\n\
const { length } = run, then = (before) => next < last ? partOf(length, before, next, rest) : 0;\n\
const part = (before) => (before[next] - before[i] - partOf(length, before, i, begin) + then(before)) / step;\n\
shadeTimes(x, shades, part);\n}\nfunction shadeTimes(x, shades, part) {\n\
shade(high, x, shades, part(run.ranBefore));\nshade(low, x, palette.waitShades, part(run.waitedBefore));\n\
shade(low, x, palette.parkedShades, part(run.parkedBefore));\n}\nfunction drawPiece(x0, x1, shades, i) {\n\
for (let x = x0; x < x1; x++) shadeTimes(x, shades, (before) => partOf(run.length, before, i, 1));\n}\n\
function drawWait(x0, x1, queue) {\nconst parked = queue === PARKED;\nlow.hasTiles = true;\n\
low.paper.fill(parked ? palette.parkedPaper : palette.waitPaper, x0, x1);\nlow.tile.fill(tileOf(queue), x0, x1);\n\
low.ink.fill(parked ? palette.parked : palette.wait, x0, x1);\n}\nfunction drawWake(x, y) {\n\
const size = Math.round(6 * ratio);\n\
for (let k = 0; k < size; k++) fill(x - (k >> 1), x + (k >> 1) + 1, y - size + k + 2, y - size + k + 3, palette.ink);\n\
}\nfunction shareWindow(middle, next = run.changes.findIndex(([at]) => at > middle)) {\n\
const after = run.changes[next]?.[0] ?? Infinity, before = (next < 0 ? run.changes.at(-1) : run.changes[next - 1])?.[0] ?? 0;\n\
return [Math.max(0, before, middle - view.window / 2), Math.min(run.duration, after, middle + view.window / 2)];\n}\n\
function makeWindows() {\n\
const width = plotWidth(), { sums, changes } = run, [first, last] = [0, 1].map(() => new Uint32Array(width));\n\
const [firstPart, lastPart, busy] = [0, 1, 2].map(() => new Float64Array(width)), windows = { first, firstPart, last, lastPart, busy };\n\
for (let x = 0, next = 0; x < width; x++) {\nconst middle = view.from + (x + 0.5) * perPixel();\n\
while (next < changes.length && changes[next][0] <= middle) next++;\n\
const [low, high] = shareWindow(middle, next < changes.length ? next : -1), from = low / sums.cell, until = high / sums.cell;\n\
first[x] = Math.min(from, sums.cells - 1);\nlast[x] = Math.min(until, sums.cells - 1);\n\
firstPart[x] = Math.min(from, sums.cells) - first[x];\nlastPart[x] = Math.min(until, sums.cells) - last[x];\n\
busy[x] = inWindow(windows, x, sums.busy, 0);\n}\nreturn windows;\n}\n\
function inWindow({ first, firstPart, last, lastPart }, x, values, start) {\n\
const low = start + first[x], high = start + last[x];\n\
return values[high] + lastPart[x] * (values[high + 1] - values[high]) - (values[low] + firstPart[x] * (values[low + 1] - values[low]));\n\
}\nfunction shareIn(g, from, until, busy = within(run.sums, run.sums.busy, 0, from, until) || 1) {\n\
const { sums } = run, start = g * sums.row;\n\
return { share: within(sums, sums.ran, start, from, until) / busy, due: within(sums, sums.due, start, from, until) / busy,\n\
isCapped: within(sums, sums.parked, start, from, until) > 0 };\n}\nfunction drawShare(g, y, tall) {\n\
const { sums } = run, windows = view.windows ??= makeWindows(), start = g * sums.row, end = y + tall;\n\
const offset = plotLeft(), width = plotWidth(), thick = high.grain, colour = colourOf(run.groups[g].first);\n\
for (let x = 0, before = -1; x < width; x++) {\nconst busy = windows.busy[x];\n\
if (busy <= 0) { before = -1; continue; }\n\
const share = inWindow(windows, x, sums.ran, start) / busy, due = inWindow(windows, x, sums.due, start) / busy;\n\
const top = end - Math.round(Math.min(1, share / view.top) * tall);\n\
const line = end - thick - Math.round(Math.min(1, due / view.top) * (tall - thick));\n\
const isShort = (due - share) / view.top > 0.03, isCapped = isShort && inWindow(windows, x, sums.parked, start) > 0;\n\
const lack = isShort ? palette[isCapped ? \"parkedShades\" : \"wrongShades\"][26] : 0;\n\
drawShareColumn(offset + x, end, top, line, before < 0 ? line : before, lack, colour);\nbefore = line;\n\
drawCap(run.groups[g], x, busy, end, tall);\n}\nfill(offset, offset + width, end, end + thick, palette.line);\n}\n\
function drawCap({ quota, period }, x, busy, end, tall) {\nif (quota === undefined) return;\n\
const { first, firstPart, last, lastPart } = view.windows, thick = high.grain;\n\
const time = (last[x] + lastPart[x] - first[x] - firstPart[x]) * run.sums.cell, cap = quota / period * time / busy / view.top;\n\
const y = end - thick - Math.round(cap * (tall - thick)), at = plotLeft() + x;\n\
if (cap < 1 && x % (8 * thick) < 5 * thick) fill(at, at + 1, y, y + thick, palette.parked);\n}\n\
function drawShareColumn(x, end, top, line, before, lack, colour) {\n\
const thick = high.grain, tile = TILES[WRONG_TILE], first = Math.min(before, line), last = Math.max(before, line) + thick;\n\
for (let at = Math.max(0, Math.min(top, first)); at < Math.min(pixelsHigh, end); at++) {\n\
const place = at * pixelsWide + x;\nif (at >= first && at < last) pixels[place] = palette.ink;\n\
else if (at >= top) pixels[place] = at < top + thick ? palette.edges[colour] : palette.tints[colour];\n\
else if (lack && at > line && tile[Math.floor(at / thick) % TILE * TILE + high.columns[x]]) pixels[place] = lack;\n}\n\
}\nfunction drawAllProcessors(y, tall) {\n\
const { sums, groups, lost } = run, leaves = [...groups.keys()].filter((g) => groups[g].tasks.length > 0);\n\
const layers = leaves.map((g) => layerOf((time) => gridUntil(sums, sums.ran, g * sums.row, time), ...coloursOfGroup(g, leaves)));\n\
layers.push(layerOf((time) => waitedUntil(lost, time), palette.wrong, palette.wrong, true));\n\
if (run.idleByQuota > 0) layers.push(layerOf((time) => quotaUntil(lost, time), palette.parked, palette.parked, true));\n\
for (let x = 0; x < plotWidth(); x++) drawLayers(layers, x, y, tall);\n}\n\
const layerOf = (until, colour, edge, isHatched = false) => ({ until, colour, edge, isHatched, before: until(view.from) });\n\
function coloursOfGroup(g, leaves) {\nconst colour = colourOf(run.groups[g].tasks[0]);\n\
return leaves.length > 1 ? [palette.fills[colour], palette.edges[colour]] : [palette.several, palette.several];\n}\n\
function drawLayers(layers, x, y, tall) {\n\
const step = perPixel(), time = Math.min(run.duration, view.from + (x + 1) * step), scale = tall / step / run.processors;\n\
let sum = 0, bottom = y + tall;\nfor (const layer of layers) {\n\
const now = layer.until(time), added = now - layer.before;\nsum += added;\nlayer.before = now;\n\
let top = Math.max(y, y + tall - Math.round(sum * scale));\n\
if (layer.isHatched && added > 0.001 * step) top = Math.max(y, Math.min(top, bottom - high.grain));\n\
if (top < bottom) drawLayer(layer, plotLeft() + x, top, bottom);\nbottom = Math.min(bottom, top);\n}\n}\n\
function drawLayer({ colour, edge, isHatched }, x, top, bottom) {\n\
const tile = TILES[WRONG_TILE], { grain, columns } = high, hasEdge = bottom - top >= 3 * grain;\n\
for (let at = Math.max(0, top); at < Math.min(pixelsHigh, bottom); at++) {\n\
if (isHatched && !tile[Math.floor(at / grain) % TILE * TILE + columns[x]]) continue;\n\
pixels[at * pixelsWide + x] = hasEdge && at < top + grain ? edge : colour;\n}\n}\n\
function drawGroupSum(g, y, tall) {\n\
const { sums } = run, start = g * sums.row, offset = plotLeft(), width = plotWidth(), step = perPixel();\n\
const { all, first } = run.groups[g], most = Math.min(all, run.processors), shades = palette.tasks[colourOf(first)];\n\
let ran = gridUntil(sums, sums.ran, start, view.from), waited = gridUntil(sums, sums.waited, start, view.from);\n\
clearBands();\nfor (let x = 0; x < width; x++) {\nconst time = Math.min(run.duration, view.from + (x + 1) * step);\n\
const ranNow = gridUntil(sums, sums.ran, start, time), waitedNow = gridUntil(sums, sums.waited, start, time);\n\
shade(high, offset + x, shades, (ranNow - ran) / step / most);\n\
shade(low, offset + x, palette.waitShades, (waitedNow - waited) / step / all);\nran = ranNow; waited = waitedNow;\n}\n\
putBands(y, tall);\n}\nfunction drawTrack(track, y, tall) {\n\
const offset = plotLeft(), width = plotWidth(), step = perPixel();\nfor (let x = 0; x < width; x++) {\n\
const from = view.from + x * step, length = lengthOfTrack(track, from, Math.min(run.duration, from + step)) / step;\n\
if (length <= 0) continue;\n\
const top = y + tall - Math.max(high.grain, Math.round(Math.min(1, length / track.most) * tall));\n\
fill(offset + x, offset + x + 1, top, y + tall, palette.waitPaper);\n\
fill(offset + x, offset + x + 1, top, top + high.grain, palette.wait);\n}\n\
fill(offset, offset + width, y + tall, y + tall + high.grain, palette.line);\n}\n\
const MOST_TASK_ROWS = 128, MOST_CPU_ROWS = 32;\nfunction makeRows() {\n\
const rows = [], many = run.tasks.length > 64, thin = run.processors > MOST_CPUS, strip = run.groups.length > 1;\n\
const add = (row) => rows.push(row), addGroup = (g, depth) => {\nconst folded = view.folded.has(g);\n\
add({ kind: \"group\", number: g, depth, folded, high: folded ? 50 : strip ? 34 : 24 });\nif (folded) return;\n\
for (const child of run.groups[g].children) addGroup(child, depth + 1);\n\
for (const task of run.groups[g].tasks) add({ kind: \"task\", number: task, depth: depth + 1, high: many ? 18 : 28 });\n\
};\nconst addSection = (key, name, high) => {\nconst folded = view.folded.has(key);\n\
add({ kind: \"section\", key, name, folded, high: folded ? high : 24 });\nreturn !folded;\n};\n\
if (addSection(\"cpus\", run.processors === 1 ? \"CPU\" : run.processors + \" CPUs\", run.processors > MOST_CPU_ROWS ? 104 : 56))\n\
for (let cpu = 0; cpu < run.idle.length; cpu++) add({ kind: \"cpu\", number: cpu, high: thin ? 9 : 28 });\n\
if (run.tracks.length > 0 && !run.isMerged && addSection(\"queues\", \"Queues\", 24))\n\
run.tracks.forEach((_, number) => add({ kind: \"track\", number, high: 30 }));\n\
add({ kind: \"section\", name: view.wide ? \"Groups and tasks\" : \"Tasks\", high: 24 });\n\
run.groups.forEach((group, g) => { if (group.parent < 0) addGroup(g, 0); });\nplaceRows(rows);\n}\n\
function placeRows(rows) {\n\
const room = element(\"scroller\").clientHeight - AXIS - 16, wanted = rows.reduce((sum, row) => sum + row.high, 0);\n\
const grow = clamp(room / wanted, 1, 1.8);\nlet y = 0;\nfor (const row of rows) {\nrow.y = y;\n\
y += row.high = row.kind === \"section\" ? row.high : Math.floor(row.high * grow);\n}\n\
Object.assign(view, { rows, total: y, row: clamp(view.row, 0, rows.length - 1) });\n\
element(\"spacer\").style.height = y + AXIS + 8 + \"px\";\n}\nfunction foldLargest() {\n\
const size = (g) => run.groups[g].tasks.length, groups = [...run.groups.keys()].sort((one, other) => size(other) - size(one));\n\
let tasks = run.tasks.length;\nfor (const g of groups) {\nif (tasks <= MOST_TASK_ROWS) return;\nview.folded.add(g);\n\
tasks -= size(g);\n}\n}\n\
const rowOf = (kind, number) => view.rows.findIndex((row) => row.kind === kind && row.number === number);\n\
const nameOf = (kind, number) => kind === \"cpu\" ? \"CPU \" + number : run[kind + \"s\"][number].name;\n\
function rowTitle(row) {\n\
const name = row.name ?? (row.kind === \"cpu\" || row.kind === \"track\" ? \"\" : row.kind + \" \") + nameOf(row.kind, row.number);\n\
const state = row.folded === undefined || row.kind === \"section\" && !row.key ? [] : [row.folded ? \"folded\" : \"unfolded\"];\n\
return [name, ...boundWordsOf(row), ...state].join(\", \");\n}\n\
const boundWordsOf = (row) => row.kind === \"task\" ? boundWords(run.tasks[row.number]) : [];\n\
function drawRow(row, index) {\n\
const y = Math.round((AXIS + row.y - view.scroll) * ratio), tall = Math.round(row.high * ratio);\n\
const pad = Math.round((row.high > 12 ? 3 : 1) * ratio);\n\
if (index === view.row && document.activeElement === element(\"canvas\")) fill(0, pixelsWide, y, y + tall, palette.band);\n\
if (row.kind === \"section\") {\nfill(0, pixelsWide, y + tall - 1, y + tall, palette.line);\n\
if (row.folded && row.key === \"cpus\") drawAllProcessors(y + pad, tall - 3 * pad);\n}\n\
else if (row.kind === \"cpu\") drawProcessor(row.number, y + pad, tall - 2 * pad);\n\
else if (row.kind === \"track\") drawTrack(run.tracks[row.number], y + pad, tall - 2 * pad);\n\
else if (row.kind === \"task\") drawTask(row.number, y + pad, tall - 2 * pad);\nelse {\n\
const strip = row.folded ? Math.round(tall * 0.58) : tall - 2 * pad;\n\
if (run.groups.length > 1) drawShare(row.number, y + pad, strip);\n\
if (row.folded) drawGroupSum(row.number, y + strip + 2 * pad, tall - strip - 3 * pad);\n}\n}\n\
function box(x, y, wide, high, colour) {\ncontext.fillStyle = colour;\ncontext.fillRect(x, y, wide, high);\n}\n\
function frame(x, y, wide, high, colour) {\nObject.assign(context, { strokeStyle: colour, lineWidth: 2 });\n\
context.strokeRect(x, y, wide, high);\n}\n\
function write(words, x, y, colour, size = 12, weight = 400, room = undefined) {\n\
const font = weight + \" \" + size + \"px system-ui, sans-serif\";\ncontext.font = font;\n\
context.fillStyle = colour;\ncontext.fillText(room === undefined ? words : fitting(words, room, font), x, y);\n}\n\
const fitted = new Map();\nfunction fitting(words, room, font) {\n\
const key = font + Math.floor(room) + words, fits = (text) => context.measureText(text).width <= room;\n\
if (fitted.size > 5000) fitted.clear();\n\
if (!fitted.has(key)) fitted.set(key, fits(words) ? words : shortened(words, fits));\nreturn fitted.get(key);\n}\n\
function shortened(words, fits) {\n\
const letters = [...words], end = letters.slice(-Math.min(3, letters.length >> 2)).join(\"\");\n\
let count = letters.length - 4;\n\
while (count > 1 && !fits(letters.slice(0, count).join(\"\") + \"\u{2026}\" + end)) count--;\n\
return letters.slice(0, Math.max(1, count)).join(\"\") + \"\u{2026}\" + end;\n}\n\
const foldMark = (row) => row.folded ? \"\u{25b8} \" : \"\u{25be} \";\nconst indent = (row) => 6 + 10 * row.depth;\n\
const NAMES = {\nsection(row, y) {\n\
const { ink, faint, wrongInk } = palette.names, all = run.duration * run.processors;\n\
write((row.key ? foldMark(row) : \"\") + row.name, 6, y + 13, ink, 12, 600, left() - 10);\n\
if (!row.folded || row.key !== \"cpus\") return;\nconst idle = run.idle.reduce((sum, one) => sum + one, 0) / all;\n\
write(\"busy \" + percent(run.ranBefore[run.count] / all), 18, y + 29, faint, 11, 400, left() - 22);\n\
if (idle > 0) write(\"idle, a task waits \" + percent(idle), 18, y + 44, wrongInk, 11, 400, left() - 22);\n},\n\
cpu({ number, high }, y) {\n\
const { ink, wrongInk } = palette.names, idle = run.idle[number], told = high >= 28 && idle > 0, isThin = high < 12;\n\
if (!isThin || number % 4 === 0) write(\"CPU \" + number, 12, y + high / 2 - (told ? 6 : 0), ink, isThin ? 10 : 12);\n\
if (told) write((view.wide ? \"idle, a task waits: \" : \"idle: \") + timeText(idle), 12, y + high / 2 + 8, wrongInk, 11, 400, left() - 16);\n\
},\ntrack({ number, high }, y) {\nconst { ink, faint } = palette.names, { name, most } = run.tracks[number];\n\
write(name, 12, y + high / 2 - 6, ink, 12, 400, left() - 16);\n\
write(\"at most \" + +most.toFixed(1), 12, y + high / 2 + 7, faint, 11, 400, left() - 16);\n},\ngroup(row, y) {\n\
const group = run.groups[row.number], { ink, faint, wrongInk } = palette.names, x = indent(row), room = left() - 10 - x;\n\
write(foldMark(row) + group.name, x, y + 11, ink, 12, 600, room);\n\
const isShort = group.due - group.share > 0.05 && !group.isCapped;\n\
const words = view.wide ? percent(group.share) + \" of \" + percent(group.due) + (group.isCapped ? \", quota\" : \" due\")\n\
: Math.round(100 * group.share) + \"% of \" + Math.round(100 * group.due) + \"%\";\n\
if (run.groups.length > 1) write(words, x, y + 25, isShort ? wrongInk : faint, 11, 400, room);\n\
if (row.folded) write(group.all + (group.all === 1 ? \" task\" : \" tasks\"), x, y + 40, faint, 11, 400, room);\n},\n\
task(row, y) {\n\
const { number, high } = row, size = Math.min(16, high - 4), colour = colourOf(number), x = indent(row);\n\
const name = letters(number), wide = Math.max(size, 8 * name.length + 6), next = x + wide + 5;\n\
box(x, y + (high - size) / 2, wide, size, hexOf(palette.edges[colour]));\n\
box(x + 1, y + (high - size) / 2 + 1, wide - 2, size - 2, palette.names.tasks[colour]);\n\
write(name, x + 4, y + high / 2, palette.taskInk[colour], 10, 600);\n\
const { ink, faint } = palette.names, { name: words, cpus } = run.tasks[number], told = high >= 28 && cpus, room = left() - 10 - next;\n\
write(words, next, y + high / 2 - (told ? 6 : 0), isFaint(number) ? faint : ink, 12, 400, room);\n\
if (told) write(cpusText(cpus), next, y + high / 2 + 8, faint, 11, 400, room);\n},\n};\nfunction draw() {\n\
const bottom = view.scroll + pixelsHigh / ratio - AXIS, sight = [];\n\
view.rows.forEach((row, index) => { if (row.y + row.high > view.scroll && row.y < bottom) sight.push([index, row]); });\n\
pixels.fill(palette.paper);\nview.labels = [];\nview.windows = null;\n\
const ejected = plotLeft() + Math.max(0, Math.round(toPixel(run.ended.at ?? Infinity)));\n\
fill(ejected, pixelsWide, 0, pixelsHigh, mixed(palette.paper, palette.wrong, 0.07));\n\
for (const [index, row] of sight) drawRow(row, index);\ncontext.putImageData(image, 0, 0);\n\
drawWords(left(), pixelsWide / ratio, pixelsHigh / ratio, sight);\n}\nfunction inside(x, y, wide, high, act) {\n\
context.save();\ncontext.beginPath();\ncontext.rect(x, y, wide, high);\ncontext.clip();\nact();\ncontext.restore();\n\
}\nfunction drawWords(offset, wide, high, sight) {\ncontext.setTransform(ratio, 0, 0, ratio, 0, 0);\n\
context.textBaseline = \"middle\";\ninside(offset, AXIS, wide - offset, high, () => {\n\
context.textAlign = \"center\";\n\
for (const [x, y, words, colour] of view.labels) write(words, x / ratio, y / ratio, colour, 11, 600);\n\
context.textAlign = \"left\";\nfor (const [, row] of sight) drawFrames(row, offset);\n\
for (const [, row] of sight) if (row.kind === \"group\") drawChanges(row, offset);\ndrawChosen(offset);\n\
drawRange(offset, high);\n});\n\
inside(0, AXIS, offset - 2, high, () => { for (const [, row] of sight) NAMES[row.kind](row, AXIS + row.y - view.scroll); });\n\
drawAxis(offset, wide);\ndrawRangeAtAxis(offset, wide);\ndrawCursor(offset, wide, high);\n\
drawEjection(offset, wide, high);\n}\n\
const roundStep = (least) => [1, 2, 5, 10].map((step) => step * 10 ** Math.floor(Math.log10(least))).find((step) => step >= least);\n\
const percent = (share) => (100 * share).toFixed(1) + \"%\";\n\
const timeText = (ms) => ms >= 10000 ? +(ms / 1000).toFixed(3) + \" s\" : +ms.toFixed(3) + \" ms\";\n\
const momentText = (time) => timeText(run.begin + time);\nfunction tickText(time, step) {\n\
const moment = run.begin + time, digits = Math.max(0, 3 - Math.floor(Math.log10(step)));\n\
return run.begin + view.until > 5000 && step >= 10 ? +(moment / 1000).toFixed(digits) + \" s\" : moment + \" ms\";\n\
}\nfunction drawAxis(offset, wide) {\n\
const { line, faint, ink } = palette.names, step = Math.max(1, roundStep((view.until - view.from) / (wide - offset) * 80));\n\
box(0, 0, wide, AXIS, palette.names.paper);\n\
const struck = isEjectionShown() ? ejectionAt(offset) : -1;  // the line of an ejection crosses the numbers there\n\
for (let time = Math.ceil((run.begin + view.from) / step) * step - run.begin; time <= view.until; time += step) {\n\
const x = Math.round(offset + toPixel(time) / ratio), words = tickText(time, step), end = x + 3 + 7 * words.length;\n\
box(x, AXIS - 7, 1, 7, faint);\n\
if (end < wide + 3 && !(x + 2 < struck && struck < end + 2)) write(words, x + 3, AXIS - 12, faint, 11);\n}\n\
box(0, AXIS - 1, wide, 1, line);\nwrite(\"Time\", 6, AXIS - 12, ink, 11, 600);\n}\nfunction endedWords() {\n\
const { how, at, task, code } = run.ended;\nif (at === undefined) return \"in force to the end\";\n\
const why = { stall: () => \"stall of \" + run.tasks[task].name, fault: () => \"fault \" + code + \" (\" + FAULTS[code] + \")\",\n\
exit: () => \"exit \" + code };\nreturn \"ejected at \" + momentText(at) + \": \" + why[how]();\n}\n\
const ejectionAt = (offset) => Math.round(offset + toPixel(run.ended.at ?? -1) / ratio);\n\
function drawEjection(offset, wide, high) {\nconst x = ejectionAt(offset);\n\
if (!isEjectionShown() || x < offset || x > wide) return;\n\
const words = endedWords(), room = 7 * words.length + 6, at = Math.max(0, x + room > wide ? x - room : x);\n\
box(x - 1, 0, 2, high, palette.names.wrong);\nbox(at, 0, room, 16, palette.names.wrongInk);\n\
write(words, at + 5, 8.5, palette.dark ? \"#101418\" : \"#ffffff\", 11, 600);\n}\n\
const lengthOfWait = (wait) => (wait.isCut ? \"at least \" : \"\") + timeText(wait.length);\n\
function drawFrames(row, offset) {\n\
if (row.kind === \"task\") for (const wait of run.framed.get(row.number) ?? []) drawLongWait(wait, row, offset);\n\
const wait = row.kind === \"group\" && row.folded && run.framedOfGroup.get(row.number);\n\
if (wait) drawLongWait(wait, row, offset, run.tasks[wait.task].name + \" \");\n}\n\
function drawLongWait(wait, row, offset, name = \"\") {\nconst { from, until } = wait;\n\
if (until <= view.from || from >= view.until) return;\n\
const x0 = Math.max(offset - 4, offset + toPixel(from) / ratio), x1 = offset + toPixel(until) / ratio;\n\
const { wrong, wrongInk, paper } = palette.names;\n\
const y = AXIS + row.y - view.scroll, top = name ? y + row.high * 0.84 : y + 3 + (row.high - 6) * 0.6;\n\
const words = name + \"waited \" + lengthOfWait(wait) + (run.begin + until === run.ms ? \", to the end\" : \"\");\n\
frame(x0 + 0.5, top - 0.5, x1 - x0 - 1, y + row.high - 2.5 - top, wrong);\n\
const x = Math.max(x0, offset) + 4, at = name ? top - 9 : y + 3 + (row.high - 6) * 0.3;\n\
if (x1 - x < 7 * words.length || row.high < 18) return;\n\
if (name) box(x - 2, at - 7, 6.4 * words.length + 4, 14, paper);\n\
write(words, x, row.high < 24 ? y + 5 : at, wrongInk, row.high < 24 ? 9 : 11, 600);\n}\n\
function drawChanges(row, offset) {\nlet end = -Infinity;\nfor (const [at, g, weight] of run.changes) {\n\
const x = offset + toPixel(at) / ratio, y = AXIS + row.y - view.scroll, words = \"weight \" + weight;\n\
if (g !== row.number || at < 0) continue;\nbox(x, y + 2, 1, 28, palette.names.ink);\nif (x < end) continue;\n\
context.font = \"400 10px system-ui, sans-serif\";\nconst room = context.measureText(words).width;\n\
box(x + 1, y + 2, room + 4, 12, palette.names.paper);\nwrite(words, x + 3, y + 8, palette.names.ink, 10);\n\
end = x + 8 + room;\n}\n}\nfunction drawChosen(offset) {\n\
const chosen = view.chosen, row = chosen && view.rows[rowOf(chosen.kind, chosen.number)];\nif (!row) return;\n\
const x0 = offset + toPixel(chosen.from) / ratio, x1 = Math.max(x0 + 3, offset + toPixel(chosen.until) / ratio);\n\
frame(x0, AXIS + row.y - view.scroll + 1, x1 - x0, row.high - 2, palette.names.ink);\n}\n\
function drawRange(offset, high) {\nif (!view.range) return;\n\
const [x0, x1] = view.range.map((time) => offset + toPixel(time) / ratio), { link } = palette.names;\n\
context.globalAlpha = 0.16;\nbox(x0, AXIS, x1 - x0, high, link);\ncontext.globalAlpha = 1;\n\
for (const x of [x0, x1]) box(x - 1, AXIS, 2, high, link);\n}\nfunction drawRangeAtAxis(offset, wide) {\n\
if (!view.range) return;\n\
const [from, until] = view.range, [x0, x1] = view.range.map((time) => clamp(offset + toPixel(time) / ratio, offset, wide));\n\
box(x0, AXIS - 4, x1 - x0, 4, palette.names.link);\n\
drawTag(timeText(until - from), (x0 + x1) / 2, offset, wide, palette.names.link);\n}\n\
function drawCursor(offset, wide, high) {\n\
if (view.cursor === null || view.cursor < view.from || view.cursor > view.until) return;\n\
const x = Math.round(offset + toPixel(view.cursor) / ratio);\nbox(x, AXIS - 1, 1, high, palette.names.faint);\n\
drawTag(momentText(Math.floor(view.cursor)), x, offset, wide, palette.names.ink);\n}\n\
function drawTag(words, middle, offset, wide, colour) {\ncontext.font = \"600 11px system-ui, sans-serif\";\n\
const room = context.measureText(words).width + 8, x = clamp(middle - room / 2, offset, wide - room);\n\
box(x, AXIS - 20, room, 16, colour);\nwrite(words, x + 4, AXIS - 12, palette.names.paper, 11, 600);\n}\n\
let waiting = false;\nfunction redraw() {\nif (!waiting) requestAnimationFrame(() => { waiting = false; draw(); });\n\
waiting = true;\n}\nfunction resize() {\n\
const canvas = element(\"canvas\"), { clientWidth, clientHeight, scrollTop } = element(\"scroller\");\n\
fitted.clear();\nratio = clamp(window.devicePixelRatio || 1, 1, 2);\nview.wide = clientWidth >= 620;\n\
[pixelsWide, pixelsHigh] = [Math.max(200, Math.round(clientWidth * ratio)), Math.max(120, Math.round(clientHeight * ratio))];\n\
Object.assign(canvas, { width: pixelsWide, height: pixelsHigh });\n\
Object.assign(canvas.style, { width: pixelsWide / ratio + \"px\", height: pixelsHigh / ratio + \"px\" });\n\
context = canvas.getContext(\"2d\", { alpha: false, willReadFrequently: true });\n\
image = context.createImageData(pixelsWide, pixelsHigh);\npixels = new Uint32Array(image.data.buffer);\n\
[high, low] = [makeBand(), makeBand()];\nmakeRows();\nview.scroll = scrollTop;\ndrawOverview();\nplaceSight();\n\
redraw();\n}\nfunction show(from, until) {\n\
const length = clamp(until - from, Math.min(run.duration, 4), run.duration);\n\
view.from = clamp(from + (until - from - length) / 2, 0, run.duration - length);\nview.until = view.from + length;\n\
element(\"whole\").disabled = view.from === 0 && view.until === run.duration;\nplaceSight();\nsettleLater();\n\
redraw();\n}\nfunction zoom(factor, share = 0.5) {\n\
const length = view.until - view.from, next = clamp(length * factor, Math.min(run.duration, 4), run.duration);\n\
const from = view.from + share * (length - next);\nshow(from, from + next);\n}\nfunction showFrom(from) {\n\
const length = view.until - view.from, at = clamp(from, 0, run.duration - length);\nshow(at, at + length);\n}\n\
const pan = (share) => showFrom(view.from + share * (view.until - view.from));\nfunction scrollTo(row) {\n\
const box = element(\"scroller\"), room = box.clientHeight - AXIS;\n\
if (row.y < box.scrollTop || row.y + row.high > box.scrollTop + room) box.scrollTop = row.y - room / 2;\n\
view.scroll = box.scrollTop;\n}\nfunction goTo(kind, number, from, until) {\n\
if (kind === \"cpu\") view.folded.delete(\"cpus\");\n\
const above = kind === \"task\" ? run.tasks[number].group : kind === \"group\" ? run.groups[number].parent : -1;\n\
for (let g = above; g >= 0; g = run.groups[g].parent) view.folded.delete(g);\nmakeRows();\n\
view.row = rowOf(kind, number);\nscrollTo(view.rows[view.row]);\nconst room = Math.max(8, (until - from) * 0.6);\n\
if (from !== undefined) show(from - room, until + room);\nredraw();\n}\nfunction fold(row) {\n\
const key = row.kind === \"group\" ? row.number : row.key;\n\
if (key === undefined || key === \"cpus\" && run.isMerged) return;\n\
if (!view.folded.delete(key)) view.folded.add(key);\nmakeRows();\ntell(rowTitle(view.rows[view.row]));\nredraw();\n}\n\
const tell = (words) => { element(\"live\").textContent = words; };\nlet settling = 0;\nfunction settleLater() {\n\
clearTimeout(settling);\nsettling = setTimeout(settle, 150);\n}\nfunction settle() {\nclearTimeout(settling);\n\
fillFigures();\nconst link = linkOf();\nif (location.hash !== link) history.replaceState(null, \"\", link);\n}\n\
function linkOf() {\nconst [from, until] = [view.from, view.until].map((time) => Math.round(run.begin + time));\n\
return \"#\" + from + \"-\" + until + (view.chosen ? \",\" + encodeURIComponent(run.tasks[view.chosen.task].name) : \"\");\n\
}\nfunction followLink() {\n\
const found = /^#(\\d+)-(\\d+)(?:,(.+))?$/.exec(location.hash), [from, until] = (found ?? []).slice(1, 3).map((time) => time - run.begin);\n\
if (location.hash === \"\" || found && location.hash === linkOf()) return;\n\
if (!found || from < 0 || until <= from || until > run.duration) return tell(\"The link's window isn't in this page: \" + location.hash);\n\
const name = found[3] && nameInLink(found[3]), task = run.tasks.findIndex((task) => task.name === name);\n\
view.chosen = null;\nif (task >= 0) goTo(\"task\", task);\n\
else if (name) tell(\"The link's task isn't in this page: \" + name);\nshow(from, until);\n\
if (task >= 0) choose(stretchNear(view.rows[view.row], (from + until) / 2));\n}\nfunction nameInLink(text) {\n\
try { return decodeURIComponent(text); } catch { return text; }\n}\nconst OVERVIEW = 34;\nfunction drawOverview() {\n\
const canvas = element(\"overview\").firstElementChild, wide = Math.max(200, element(\"scroller\").clientWidth);\n\
const { sums, duration, processors } = run;\nObject.assign(canvas, { width: wide, height: OVERVIEW });\n\
const brush = canvas.getContext(\"2d\"), { several, wrong, ink } = palette.names, step = duration / (wide - left());\n\
for (let x = 0; x < wide - left(); x++) {\n\
const from = x * step, until = Math.min(duration, from + step), share = within(sums, sums.busy, 0, from, until) / step / processors;\n\
const lost = (waitedUntil(run.lost, until) - waitedUntil(run.lost, from)) / step, high = Math.round(share * (OVERVIEW - 6));\n\
paintBoxes(brush, [[several, left() + x, OVERVIEW - high, 1, high]]);\n\
if (lost > 0.01) paintBoxes(brush, [[wrong, left() + x, 0, 1, 4]]);\n}\n\
if (isEjectionShown()) paintBoxes(brush, [[wrong, left() + run.ended.at / step - 1, 0, 2, OVERVIEW]]);\n\
Object.assign(brush, { fillStyle: ink, font: \"600 11px system-ui, sans-serif\", textBaseline: \"middle\" });\n\
brush.fillText(run.begin > 0 || run.duration < run.ms ? \"All of the part\" : \"Whole run\", 6, OVERVIEW / 2);\n}\n\
const overviewWidth = () => element(\"scroller\").clientWidth - left();\nfunction placeSight() {\n\
const scale = overviewWidth() / run.duration, sight = element(\"sight\").style;\n\
sight.left = left() + view.from * scale + \"px\";\nsight.width = (view.until - view.from) * scale + \"px\";\n}\n\
function listenToOverview() {\n\
const strip = element(\"overview\"), start = () => strip.getBoundingClientRect().left + left();\n\
const timeOf = (event) => (event.clientX - start()) / overviewWidth() * run.duration;\nlet grip = null;\n\
strip.addEventListener(\"pointerdown\", (event) => {\nconst time = timeOf(event), length = view.until - view.from;\n\
if (time < view.from || time > view.until) showFrom(time - length / 2);\ngrip = time - view.from;\n\
strip.setPointerCapture(event.pointerId);\n});\n\
strip.addEventListener(\"pointermove\", (event) => { if (grip !== null) showFrom(timeOf(event) - grip); });\n\
for (const name of [\"pointerup\", \"pointercancel\"]) strip.addEventListener(name, () => { grip = null; });\n}\n\
function stretchAt(row, time) {\nif (row.kind === \"cpu\") {\n\
const i = firstAfter(run.cpuFrom, run.cpuLength, run.cpuStart[row.number], run.cpuStart[row.number + 1], time);\n\
if (i < run.cpuStart[row.number + 1] && run.cpuFrom[i] <= time) return taskStretch(run.cpuTask[i], run.cpuFrom[i], row);\n\
}\nif (row.kind === \"task\") return taskStretch(row.number, time, row);\nreturn null;\n}\n\
function taskStretch(task, time, row) {\n\
const last = run.taskStart[task + 1], i = firstAfter(run.from, run.length, run.taskStart[task], last, time);\n\
if (i >= last || run.from[i] > time) return null;\n\
return { index: i, task, kind: row.kind, number: row.number, from: run.from[i], until: run.from[i] + run.length[i] };\n\
}\nfunction describe({ index, task, from, until }) {\n\
if (run.cpu[index] === SEVERAL) return describePiece(index, task, from, until);\n\
const ran = run.cpu[index] !== NOWHERE, queue = run.queue[index], why = run.why[index];\n\
const began = BEGAN[why >> 4 & 3] + (hasWaitBefore(run, index) ? \", and waited 1 ms\" : \"\");\n\
const what = ran ? \"ran on CPU \" + run.cpu[index] : queue === PARKED ? \"was parked\" : \"waited\";\n\
const [begin, end] = ran ? [from, until] : [clockFrom(run, index), clockUntil(run, index)];\n\
const when = \"from \" + momentText(begin) + \" to \" + momentText(end) + \", \" + timeText(end - begin);\n\
const where = queue === NO_QUEUE ? \"\" : (ran ? \"it came from \" : \"in \") + queueName(run, queue);\n\
const lines = [run.tasks[task].name + \" \" + what, when + (began && \"; \" + began), \"then \" + (ran ? WHY_RUN : WHY_WAIT)[why & 7], where];\n\
return [...lines.filter(Boolean), ...boundWords(run.tasks[task])];\n}\n\
function describePiece(index, task, from, until) {\n\
const parked = parkedIn(run, index), words = \"ran \" + timeText(ranIn(run, index)) + \", waited \" + timeText(waitedIn(run, index));\n\
return [run.tasks[task].name + \", several stretches\", \"from \" + momentText(from) + \" to \" + momentText(until),\n\
words + (parked > 0 ? \", was parked \" + timeText(parked) : \"\"), ...boundWords(run.tasks[task])];\n}\n\
const boundWords = (task) => task.cpus ? [\"may run on \" + cpusText(task.cpus)] : [];\nfunction cpusText(cpus) {\n\
if (cpus.length === 1) return \"CPU \" + cpus[0] + \" alone\";\nconst ranges = [];\nfor (const cpu of cpus) {\n\
if (ranges.at(-1)?.[1] === cpu - 1) ranges.at(-1)[1] = cpu;\nelse ranges.push([cpu, cpu]);\n}\n\
const words = ranges.map(([first, last]) => first === last ? first : first + \" to \" + last), end = words.pop();\n\
return \"CPUs \" + (words.length > 0 ? words.join(\", \") + \" and \" : \"\") + end;\n}\n\
function stretchNear(row, time) {\nconst start = run.taskStart[row.number], end = run.taskStart[row.number + 1];\n\
if (row.kind !== \"task\" || start === end) return null;\n\
return taskStretch(row.number, Math.max(time, run.from[Math.min(end - 1, firstAfter(run.from, run.length, start, end, time))]), row);\n\
}\nfunction describePlace(row, time) {\nconst at = Math.floor(time);\n\
if (row.kind === \"cpu\") return [\"CPU \" + row.number + \" idle\", ...waitingWords(at, row)];\n\
if (row.kind === \"section\" && row.folded && row.key === \"cpus\") return run.isMerged ? null : describeAllCpus(at);\n\
if (row.kind === \"track\") {\n\
const track = run.tracks[row.number], length = lengthOfTrack(track, at, Math.min(run.duration, at + 1));\n\
return [track.name, (track.cell > 1 ? length.toFixed(1) + \" tasks on average\" : tasksText(length)) + \" at \" + momentText(at)];\n\
}\nif (row.kind !== \"group\" || run.groups.length === 1) return null;\n\
const [from, until] = shareWindow(time), { share, due, isCapped } = shareIn(row.number, from, until);\n\
const words = \"share \" + percent(share) + \", due \" + percent(due) + (isCapped ? \"; its quota was used up\" : \"\");\n\
return [run.groups[row.number].name, words, ...quotaWords(run.groups[row.number]),\n\
\"from \" + momentText(Math.round(from)) + \" to \" + momentText(Math.round(until)), \"weight \" + weightAt(row.number, time)];\n\
}\nconst tasksText = (count) => count + (count === 1 ? \" task\" : \" tasks\");\n\
const weightAt = (g, time) => run.changes.filter(([at, group]) => group === g && at <= time).at(-1)?.[2] ?? run.groups[g].weight;\n\
const quotaWords = ({ quota, period }) => quota === undefined ? [] : [\"quota \" + quota + \" ms in \" + period + \" ms\"];\n\
function waitingWords(time, row) {\n\
const kinds = run.tasks.map((_, task) => { const at = taskStretch(task, time, row); return at && kindOf(at.index); });\n\
const isHere = (task) => row.kind !== \"cpu\" || mayRunOn(task, row.number);\n\
const named = (kind, here) => run.tasks.filter((task, number) => kinds[number] === kind && isHere(task) === here).map(({ name }) => name);\n\
const [waiting, parked, elsewhere] = [named(1, true), named(2, true), named(1, false)];\n\
if (waiting.length > 0) return [\"waiting meanwhile: \" + firstNames(waiting)];\n\
const lines = [elsewhere.length > 0 ? \"no task waited that may run here\" : \"no task waited\"];\n\
if (elsewhere.length > 0) lines.push(\"bound to other CPUs: \" + firstNames(elsewhere));\n\
return parked.length > 0 ? [...lines, \"parked, as a quota was used up: \" + firstNames(parked)] : lines;\n}\n\
const firstNames = (names) => names.slice(0, 6).join(\", \") + (names.length > 6 ? \" and \" + (names.length - 6) + \" more\" : \"\");\n\
function describeAllCpus(time) {\n\
const busy = new Map(), count = (group) => { busy.set(group, (busy.get(group) ?? 0) + 1); };\n\
for (let cpu = 0; cpu < run.processors; cpu++)\n\
eachRun(run, cpu, time, Math.min(run.duration, time + 1), (task) => count(run.tasks[task].group));\n\
const all = [...busy.values()].reduce((sum, cpus) => sum + cpus, 0);\n\
const groups = [...busy].sort((one, other) => other[1] - one[1]).map(([group, cpus]) => run.groups[group].name + \" on \" + cpus);\n\
return [all + \" of \" + run.processors + \" CPUs ran at \" + momentText(time), ...(groups.length > 1 ? [firstNames(groups)] : []),\n\
...(all < run.processors ? waitingWords(time, {}) : [])];\n}\nfunction choose(stretch) {\nview.chosen = stretch;\n\
redraw();\nsettleLater();\nif (stretch) tellMeanwhile(stretch, describe(stretch));\nelse tellNothing();\n}\n\
function tellNothing() {\nif (view.range) return tellRange();\nelement(\"chosen\").replaceChildren();\n\
node(\"p\", \"Click a wait, or drag over the axis, to see who ran meanwhile.\", element(\"chosen\"), { class: \"faint\" });\n\
}\nfunction node(name, words, parent, attributes = {}) {\nconst made = document.createElement(name);\n\
made.textContent = words;\nfor (const [key, value] of Object.entries(attributes)) made.setAttribute(key, value);\n\
parent?.append(made);\nreturn made;\n}\nfunction wholeWait({ index, task }) {\n\
const isOwn = (i) => i >= run.taskStart[task] && i < run.taskStart[task + 1], waits = (i) => isOwn(i) && kindOf(i) === kindOf(index);\n\
let first = index, last = index;\nwhile (waits(first - 1) && goesOn(run, first - 1)) first--;\n\
while (waits(last + 1) && goesOn(run, last)) last++;\n\
return [run.from[first], run.from[last] + run.length[last], clockUntil(run, last) - clockFrom(run, first)];\n}\n\
function tellMeanwhile(stretch, lines) {\nconst box = element(\"chosen\");\ntell(lines.join(\", \"));\n\
box.replaceChildren();\nnode(\"h2\", lines[0], box);\nfor (const line of lines.slice(1)) node(\"p\", line, box);\n\
if (run.cpu[stretch.index] !== NOWHERE) return;\nconst [from, until, waited] = wholeWait(stretch);\n\
tellWhoRan(\"Who ran meanwhile\", from, until, box);\nconst more = until - from > waited ? \"more\" : \"less\";\n\
const why = until - from === waited ? \"\" : \" Run times go by ticks, so each CPU's are a millisecond \" + more + \" than the wait.\";\n\
node(\"p\", \"All CPUs together: \" + (until - from) * run.processors + \" ms.\" + why, box, { class: \"faint\" });\n\
}\nfunction tellRange() {\nconst [from, until] = view.range, box = element(\"chosen\");\nbox.replaceChildren();\n\
node(\"h2\", \"Range of \" + timeText(until - from), box);\ntellWhoRan(\"Who ran\", from, until, box);\n}\n\
let isByGroup = false;\nfunction tellWhoRan(title, from, until, box) {\n\
node(\"h3\", title + \", from \" + momentText(from) + \" to \" + momentText(until), box);\n\
const table = node(\"table\", \"\"), choice = node(\"p\", \"\", box);\n\
for (const [words, value] of [[\"by task\", false], [\"by group\", true]]) {\n\
const button = node(\"button\", words, choice, { type: \"button\", \"aria-pressed\": isByGroup === value });\n\
button.onclick = () => {\nisByGroup = value;\n\
[...choice.children].forEach((one) => one.setAttribute(\"aria-pressed\", one === button));\n\
fillWhoRan(table, from, until);\n};\n}\nbox.append(table);\nfillWhoRan(table, from, until);\n}\n\
function fillWhoRan(table, from, until) {\n\
const all = (until - from) * run.processors, found = whoRan(run, from, until);\n\
const lines = isByGroup ? byGroup(found) : found.map(({ task, ran }) => [run.tasks[task].name, ran]), shown = lines.slice(0, 12);\n\
const idle = all - found.reduce((sum, { ran }) => sum + ran, 0), rest = lines.slice(12).reduce((sum, [, ran]) => sum + ran, 0);\n\
if (lines.length > 12) shown.push([lines.length - 12 + \" more\", rest]);\n\
if (idle > 0) shown.push([\"idle\", idle]);\n\
fillTable(table, [isByGroup ? \"group\" : \"task\", \"ms\", \"part\"], shown.map(([name, ran]) => [name, ran, percent(ran / all)]));\n\
}\nfunction byGroup(found) {\nconst sums = new Map();\n\
for (const { task, ran } of found) sums.set(run.tasks[task].group, (sums.get(run.tasks[task].group) ?? 0) + ran);\n\
return [...sums].map(([group, ran]) => [run.groups[group].name, ran]).sort((one, other) => other[1] - one[1]);\n}\n\
const tables = new WeakMap(), PIECE = 32, collator = new Intl.Collator(\"en\", { numeric: true });\n\
const sizeOf = (value) => typeof value === \"string\" && /^[\\d.]+%$/.test(value) ? parseFloat(value) : value;\n\
const isNumber = (value) => typeof sizeOf(value) === \"number\";\n\
const classOf = (value) => isNumber(value) ? \"number\" : \"\";\n\
const compare = (one, other) => isNumber(one) && isNumber(other) ? sizeOf(one) - sizeOf(other) : collator.compare(one, other);\n\
function fillTable(table, heads, lines, press) {\n\
const { column, sign } = tables.get(table) ?? { column: -1, sign: 1 };\n\
const shown = column < 0 ? lines : [...lines].sort((one, other) => sign * compare(one[column], other[column]));\n\
tables.set(table, { heads, lines, press, column, sign, shown });\nfillHeads(table);\n\
const count = Math.max(1, Math.ceil(lines.length / PIECE)), pieces = table.tBodies;\n\
while (pieces.length > count) pieces[count].remove();\n\
while (pieces.length < count) watcher.observe(node(\"tbody\", \"\", table));\n\
table.className = count > 1 ? \"long\" : \"\";\n\
for (const piece of pieces) if (count === 1 || piece.rows.length === 0 || inSight.has(piece)) fillPiece(piece);\n}\n\
function fillHeads(table) {\n\
const { heads, lines, column, sign } = tables.get(table), top = table.tHead?.rows[0] ?? node(\"tr\", \"\", node(\"thead\", \"\", table));\n\
heads.forEach((name, number) => {\n\
const head = top.cells[number] ?? addHead(table, top), order = sign > 0 ? \"ascending\" : \"descending\";\n\
head.setAttribute(\"aria-sort\", number === column ? order : \"none\");\n\
head.className = classOf(lines[0]?.[number]);\nsetText(head.firstChild, name);\n});\n}\n\
function addHead(table, top) {\nconst head = node(\"th\", \"\", top, { scope: \"col\" });\n\
node(\"button\", \"\", head, { type: \"button\" }).onclick = () => sortBy(table, head.cellIndex);\nreturn head;\n}\n\
function sortBy(table, number) {\n\
const { heads, lines, press, column, sign } = tables.get(table), first = isNumber(lines[0]?.[number]) ? -1 : 1;\n\
Object.assign(tables.get(table), { column: number, sign: column === number ? -sign : first });\n\
fillTable(table, heads, lines, press);\n}\n\
const inSight = new Set(), watcher = new IntersectionObserver((entries) => {\n\
for (const { target, isIntersecting } of entries) {\nif (isIntersecting && target.isConnected) fillPiece(target);\n\
if (isIntersecting) inSight.add(target); else inSight.delete(target);\n}\n});\nfunction fillPiece(piece) {\n\
const table = piece.parentNode, { shown, press } = tables.get(table), first = PIECE * [...table.tBodies].indexOf(piece);\n\
const rows = [...piece.rows], lines = shown.slice(first, first + PIECE);\n\
for (const row of rows.slice(lines.length)) row.remove();\n\
lines.forEach((line, number) => fillLine(rows[number] ?? node(\"tr\", \"\", piece), line, press));\n}\n\
function fillLine(row, line, press) {\nconst cells = row.children;\nline.forEach((value, column) => {\n\
const cell = cells[column] ?? addCell(row, column === 0 && press), look = classOf(value);\n\
if (cell.className !== look) cell.className = look;\nsetText(cell.firstElementChild ?? cell, value);\n});\n}\n\
function addCell(row, press) {\nconst cell = node(\"td\", \"\", row);\n\
if (press) node(\"button\", \"\", cell, { type: \"button\" }).onclick = () => press(cell.textContent);\nreturn cell;\n\
}\nfunction setText(element, words) {\nif (element.textContent !== String(words)) element.textContent = words;\n}\n\
function fillFigures() {\n\
const [from, until] = view.range ?? [Math.floor(view.from), Math.ceil(view.until)], window = [from, until, view.range !== null].join();\n\
if (view.figures === window) return;\nview.figures = window;\n\
const { groups, tasks, cpus } = figuresOf(run, from, until), isAll = from === 0 && until === run.duration;\n\
element(\"span\").textContent = (view.range ? \"Range: \" : isAll ? \"All: \" : \"In sight: \") + momentText(from) + \" to \" + momentText(until);\n\
element(\"all\").hidden = !view.range;\n\
fillTable(element(\"groups\"), [\"group\", \"share\", \"due\"], groups.map(({ share, due, isCapped }, g) =>\n\
[run.groups[g].name + (isCapped ? \" (quota used up)\" : \"\"), percent(share), percent(due)]));\n\
fillTable(element(\"cpus\"), [\"CPU\", \"busy ms\", \"idle ms\", \"of it a task waited\"], cpus.map(({ busy, idle, waits }, cpu) =>\n\
[String(cpu), busy, idle, waits]));\n\
const columns = run.isMerged ? 3 : 4, heads = [\"task\", \"ran ms\", \"waited ms\", \"longest\"].slice(0, columns);\n\
fillTable(element(\"tasks\"), heads, tasks.map(({ ran, waited, longest }, task) =>\n\
[run.tasks[task].name, ran, waited, longest].slice(0, columns)), (name) => findTask(name));\n}\n\
function fillWaits() {\nfor (const wait of run.worst.slice(0, 5)) {\n\
const words = lengthOfWait(wait) + \" \" + run.tasks[wait.task].name + \", from \" + momentText(wait.clock);\n\
const button = node(\"button\", words, node(\"li\", \"\", element(\"waits\")), { type: \"button\", class: wait.alarming ? \"wrong\" : \"\" });\n\
button.onclick = () => jump(wait);\n}\n\
const none = run.isMerged ? \"No stretch of waiting is longer than \" + timeText(run.together) + \".\" : \"No task waited.\";\n\
if (run.worst.length === 0) node(\"p\", none, element(\"waits\").parentNode, { class: \"faint\" });\n}\n\
function setRange(range) {\nview.range = range;\nif (range) tellRange();\n\
else if (view.chosen) tellMeanwhile(view.chosen, describe(view.chosen));\nelse tellNothing();\nsettleLater();\n\
redraw();\n}\nfunction jump(wait) {\ngoTo(\"task\", wait.task, wait.from, wait.until);\n\
choose(taskStretch(wait.task, wait.from, { kind: \"task\", number: wait.task }));\n}\n\
const nextWorst = () => jump(run.worst[view.next++ % run.worst.length]);\n\
const search = { words: \"\", found: [], at: -1 };\nfunction matchesOf(words) {\n\
const wanted = words.toLowerCase(), all = [...run.tasks.map(({ name }, number) => ({ kind: \"task\", number, name })),\n\
...run.groups.map(({ name }, number) => ({ kind: \"group\", number, name })),\n\
...run.idle.map((_, number) => ({ kind: \"cpu\", number, name: \"CPU \" + number }))];\n\
const found = wanted === \"\" ? [] : all.filter(({ name }) => name.toLowerCase().includes(wanted));\n\
const isWhole = ({ name }) => name.toLowerCase() === wanted;\n\
return [...found.filter(isWhole), ...found.filter((one) => !isWhole(one))];\n}\nfunction countMatches() {\n\
const words = element(\"search\").value.trim();\n\
if (words !== search.words) Object.assign(search, { words, found: matchesOf(words), at: -1 });\n\
const { found, at } = search, count = found.length, none = count === 0;\n\
const told = none ? \"none found\" : at < 0 ? count + \" found\" : at + 1 + \" of \" + count;\n\
element(\"found\").textContent = words === \"\" ? \"\" : told;\n\
element(\"search\").setAttribute(\"aria-invalid\", words !== \"\" && none);\n\
for (const id of [\"previous\", \"next\"]) element(id).disabled = none;\n}\nfunction findNext(by) {\ncountMatches();\n\
const { found, at } = search, count = found.length;\nif (count === 0) return;\n\
search.at = at < 0 ? (by > 0 ? 0 : count - 1) : (at + by + count) % count;\ncountMatches();\n\
const { kind, number } = found[search.at];\ngoTo(kind, number);\n\
tell(rowTitle(view.rows[view.row]) + \", \" + element(\"found\").textContent);\n}\nfunction findTask(name) {\n\
goTo(\"task\", run.tasks.findIndex((task) => task.name === name));\n\
element(\"canvas\").focus({ preventScroll: true });\n}\nfunction fillNames() {\n\
for (const { name } of [...run.tasks, ...run.groups]) node(\"option\", \"\", element(\"names\"), { value: name });\n\
}\nfunction listenToSearch() {\nconst field = element(\"search\");\n\
field.addEventListener(\"keydown\", (event) => { if (event.key === \"Enter\") findNext(event.shiftKey ? -1 : 1); });\n\
field.addEventListener(\"input\", (event) => {\ncountMatches();\n\
if (event.inputType === \"insertReplacementText\") findNext(1);\n});\n\
element(\"previous\").onclick = () => findNext(-1);\nelement(\"next\").onclick = () => findNext(1);\n}\n\
function place(event) {\n\
const box = element(\"canvas\").getBoundingClientRect(), x = event.clientX - box.left, y = event.clientY - box.top;\n\
const share = (x - left()) / (box.width - left()), at = y - AXIS + view.scroll;\n\
const index = y < AXIS ? -1 : view.rows.findIndex((row) => at >= row.y && at < row.y + row.high);\n\
return { x, y, share, time: view.from + share * (view.until - view.from), index };\n}\nfunction hover(event) {\n\
const { share, time, index } = place(event), row = view.rows[index];\nview.cursor = share >= 0 ? time : null;\n\
redraw();\nshowTip(event, linesAt(row, share, time));\n}\nfunction linesAt(row, share, time) {\n\
if (!row) return null;\n\
if (share < 0) return row.kind === \"section\" ? null : [nameOf(row.kind, row.number), ...boundWordsOf(row)];\n\
const stretch = stretchAt(row, time);\nreturn stretch ? describe(stretch) : describePlace(row, time);\n}\n\
function showTip(event, lines) {\nconst tip = element(\"tip\");\ntip.hidden = !lines;\nif (!lines) return;\n\
tip.replaceChildren();\nlines.forEach((line, number) => node(number ? \"div\" : \"b\", line, tip));\n\
const room = document.documentElement.clientWidth - tip.offsetWidth - 8;\n\
tip.style.left = clamp(event.clientX + 14, 4, Math.max(4, room)) + \"px\";\n\
tip.style.top = (event.clientY + 20 + tip.offsetHeight > innerHeight ? event.clientY - tip.offsetHeight - 12 : event.clientY + 16) + \"px\";\n\
}\nfunction press({ share, time, index }) {\nif (index < 0) return;\nconst row = view.rows[view.row = index];\n\
if (share < 0 || row.kind === \"group\") fold(row);\nelse choose(stretchAt(row, time));\n}\n\
function listenToPointers() {\nconst canvas = element(\"canvas\"), fingers = new Map();\n\
let moved = 0, start = null;\ncanvas.addEventListener(\"pointerdown\", (event) => {\n\
const { y, share, time } = place(event);\nfingers.set(event.pointerId, event);\nmoved = 0;\n\
start = (y < AXIS || event.shiftKey) && share >= 0 ? time : null;\ncanvas.setPointerCapture(event.pointerId);\n\
canvas.focus({ preventScroll: true });\n});\ncanvas.addEventListener(\"pointermove\", (event) => {\n\
const before = fingers.get(event.pointerId);\nif (!before) return hover(event);\nleave();\n\
moved += Math.abs(event.clientX - before.clientX) + Math.abs(event.clientY - before.clientY);\n\
if (fingers.size === 2) pinch(fingers, event);\n\
else if (moved > 3 && start !== null) dragRange(start, place(event).time);\nelse if (moved > 3) drag(before, event);\n\
fingers.set(event.pointerId, event);\n});\nconst end = (event) => {\n\
if (!fingers.delete(event.pointerId) || event.type !== \"pointerup\" || moved > 3) return;\n\
if (start !== null) setRange(null); else press(place(event));\n};\n\
for (const name of [\"pointerup\", \"pointercancel\"]) canvas.addEventListener(name, end);\n\
canvas.addEventListener(\"pointerleave\", leave);\n\
canvas.addEventListener(\"wheel\", turnWheel, { passive: false });\n}\nfunction leave() {\n\
element(\"tip\").hidden = true;\nview.cursor = null;\nredraw();\n}\nfunction drag(before, event) {\n\
pan((before.clientX - event.clientX) / (element(\"canvas\").clientWidth - left()));\n\
element(\"scroller\").scrollTop += before.clientY - event.clientY;\n}\nfunction dragRange(start, time) {\n\
const from = clamp(Math.floor(Math.min(start, time)), 0, run.duration - 1);\n\
setRange([from, clamp(Math.ceil(Math.max(start, time)), from + 1, run.duration)]);\n}\nfunction turnWheel(event) {\n\
const { share } = place(event);\nif (share < 0) return;\nevent.preventDefault();\n\
if (event.shiftKey || Math.abs(event.deltaX) > Math.abs(event.deltaY)) pan((event.deltaX || event.deltaY) / 1000);\n\
else zoom(Math.exp(clamp(event.deltaY / 400, -1, 1)), share);\n}\nfunction pinch(fingers, event) {\n\
const [other] = [...fingers.values()].filter((one) => one.pointerId !== event.pointerId), before = fingers.get(event.pointerId);\n\
const was = Math.abs(before.clientX - other.clientX), now = Math.abs(event.clientX - other.clientX);\n\
if (was > 10 && now > 10) zoom(was / now, place({ clientX: (event.clientX + other.clientX) / 2, clientY: event.clientY }).share);\n\
}\nconst ANYWHERE = {\n\
\"+\": () => zoom(0.6), \"=\": () => zoom(0.6), \"-\": () => zoom(1 / 0.6), 0: () => show(0, run.duration),\n\
\",\": () => step(-1), \".\": () => step(1), \"/\": () => { element(\"search\").focus(); element(\"search\").select(); }, n: () => findNext(1),\n\
p: () => findNext(-1), r: () => dragRange(Math.ceil(view.from), Math.floor(view.until)),\n};\nconst KEYS = {\n\
ArrowLeft: () => pan(-0.15), ArrowRight: () => pan(0.15), ArrowUp: () => moveRow(-1), ArrowDown: () => moveRow(1),\n\
PageUp: () => moveRow(-12), PageDown: () => moveRow(12), Home: () => showFrom(0), End: () => showFrom(run.duration), Enter: enter,\n\
};\nfunction pressKey(event) {\n\
const isInField = event.target === element(\"search\"), isInChart = [element(\"canvas\"), document.body].includes(event.target);\n\
const keys = { ...isInField ? {} : ANYWHERE, ...isInChart ? KEYS : {}, Escape: () => goBack(isInChart) }, act = keys[event.key];\n\
if (!act || event.ctrlKey || event.metaKey || event.altKey) return;\nevent.preventDefault();\nact();\n}\n\
function goBack(isInChart) {\nif (!isInChart) element(\"canvas\").focus({ preventScroll: true });\n\
else if (view.chosen) choose(null);\nelse setRange(null);\n}\nfunction enter() {\nconst row = view.rows[view.row];\n\
if (row.kind === \"group\" || row.key) fold(row);\nelse if (!view.chosen) step(1);\n\
else element(\"chosen\").focus();\n}\nfunction moveRow(by) {\n\
view.row = clamp(view.row + by, 0, view.rows.length - 1);\nscrollTo(view.rows[view.row]);\n\
tell(rowTitle(view.rows[view.row]));\nredraw();\n}\nfunction step(by) {\n\
const row = view.rows[view.row], task = row.kind === \"task\";\nif (!task && row.kind !== \"cpu\") return;\n\
const [from, length, start] = task ? [run.from, run.length, run.taskStart] : [run.cpuFrom, run.cpuLength, run.cpuStart];\n\
const first = start[row.number], last = start[row.number + 1];\n\
const now = view.chosen?.kind === row.kind && view.chosen.number === row.number ? view.chosen : null;\n\
let i = firstAfter(from, length, first, last, now ? now.from : view.from) + (now ? by : 0);\n\
if (first === last) return;\ni = clamp(i, first, last - 1);\nchoose(stretchAt(row, from[i]));\n\
const until = from[i] + length[i];\n\
if (from[i] < view.from || until > view.until) showFrom((from[i] + until - view.until + view.from) / 2);\n}\n\
function listen() {\nlistenToPointers();\nlistenToOverview();\nlistenToSearch();\n\
document.addEventListener(\"keydown\", pressKey);\naddEventListener(\"hashchange\", followLink);\n\
for (const name of [\"focus\", \"blur\"]) element(\"canvas\").addEventListener(name, redraw);\n\
element(\"scroller\").addEventListener(\"scroll\", () => { view.scroll = element(\"scroller\").scrollTop; redraw(); });\n\
const ejection = () => show(run.ended.at - 20, run.ended.at + 20);\n\
const acts = { closer: ANYWHERE[\"+\"], wider: ANYWHERE[\"-\"], whole: ANYWHERE[0], worst: nextWorst, ejection, all: () => setRange(null) };\n\
for (const [id, act] of Object.entries(acts)) element(id).onclick = act;\n\
new ResizeObserver(resize).observe(element(\"scroller\"));\n\
const dark = matchMedia(\"(prefers-color-scheme: dark)\");\n\
dark.addEventListener(\"change\", () => { palette = makePalette(dark.matches); makeLegend(); drawOverview(); redraw(); });\n\
}\nfunction paintTile(brush, tile, ink, paper, low = 0, end = 14) {\n\
paintBoxes(brush, [[paper, 0, low, 30, end - low], [ink, 0, 0, 0, 0]]);\n\
for (let y = low; y < end; y++) for (let x = 0; x < 30; x++) if (tile[y * TILE + x % TILE]) brush.fillRect(x, y, 1, 1);\n\
}\n\
const paintBoxes = (brush, boxes) => boxes.forEach(([fillStyle, ...box]) => Object.assign(brush, { fillStyle }).fillRect(...box));\n\
const WAKE = Array.from({ length: 10 }, (_, y) => [15 - (y >> 1), 2 + y, 2 * (y >> 1) + 1, 1]);\n\
const WAIT_WORDS = { [HELD]: \"held by the policy\", [GLOBAL]: \"waits in the global queue\", [BUILTIN]: \"waits for the built-in scheduler\" };\n\
function legendItems() {\nconst { names } = palette, items = [], all = run.tracks.map(({ queue }) => queue);\n\
const add = (words, tile, kind) => items.push([words, (brush) => paintTile(brush, TILES[tile], names[kind], names[kind + \"Paper\"])]);\n\
items.push([run.isByTask ? \"runs (letter and colour: its task)\" : \"runs (letter: its task; colour: its group)\",\n\
(brush) => paintBoxes(brush, [0, 1].flatMap(barBoxes))]);\n\
if (run.processors > MOST_CPUS || run.isMerged) addArea(items);\n\
for (const queue of all) if (queue < LOCAL) add(WAIT_WORDS[queue] ?? \"waits in \" + queueName(run, queue), tileOf(queue), \"wait\");\n\
if (all.some(isLocal)) add(\"waits in a CPU's own queue\", tileOf(LOCAL), \"wait\");\n\
if (run.parkedBefore[run.count] > 0) add(\"parked: quota used up\", tileOf(PARKED), \"parked\");\n\
if (run.idle.some((ms) => ms > 0)) add(\"idle while a task waits\" + (run.tasks.some(({ cpus }) => cpus) ? \" that may run there\" : \"\"), WRONG_TILE, \"wrong\");\n\
if (run.idleByQuota > 0) add(\"idle while a quota is used up\", WRONG_TILE, \"parked\");\n\
const paint = (words, boxes) => items.push([words, (brush) => paintBoxes(brush, boxes)]);\n\
if (run.framed.size > 0) paint(frameWords(), [[names.wrong, 0, 1, 30, 12], [names.waitPaper, 2, 3, 26, 8]]);\n\
if (run.wakeTimes.length > 0) paint(\"wakes, in rows with room for all of them\", WAKE.map((box) => [names.ink, ...box]));\n\
if (run.groups.length > 1) addShares(items);\n\
items.push([\"less than a pixel: the fuller its colour, the more of it ran\", ({ canvas }) => {\n\
canvas.style.background = `linear-gradient(90deg, transparent, ${names.several})`;\n}]);\nreturn items;\n}\n\
function addArea(items) {\n\
const isOne = run.groups.filter((group) => group.tasks.length).length === 1, { names } = palette;\n\
const boxes = isOne ? [[names.several, 0, 5, 30, 9]] : [[names.tasks[0], 0, 9, 30, 5], [names.tasks[1], 0, 5, 30, 4]];\n\
const rest = run.isMerged ? \"; the rest: idle\" : \"; hatched: idle while a task waits; the rest: idle\";\n\
items.push([\"all CPUs as an area: those that ran\" + (isOne ? \"\" : \", by group\") + rest, (brush) => {\n\
paintBoxes(brush, boxes);\nif (!run.isMerged) paintTile(brush, TILES[WRONG_TILE], names.wrong, names.paper, 2, 5);\n\
}]);\n}\n\
const barBoxes = (k) => [[hexOf(palette.edges[k]), 16 * k, 0, 14, 14], [palette.names.tasks[k], 16 * k + 1, 1, 12, 12]];\n\
function addShares(items) {\nconst { names } = palette, lack = (kind) => (brush) => {\n\
paintBoxes(brush, [[names.tasks[3], 0, 8, 30, 6], [names.ink, 0, 3, 30, 1]]);\n\
paintTile(brush, TILES[WRONG_TILE], names[kind], names.paper, 4, 8);\n};\n\
items.push([shareWords(), lack(\"wrong\")]);\n\
if (run.groups.some(({ quota }) => quota !== undefined)) items.push([\"what a group's quota allows\",\n\
(brush) => paintBoxes(brush, [0, 8, 16, 24].map((x) => [names.parked, x, 6, 5, 1]))]);\n\
if (run.groups.some(({ isCapped }) => isCapped)) items.push([\"a group's lack with its quota used up\", lack(\"parked\")]);\n\
}\n\
const frameWords = () => \"a wait of at least a twentieth of \" + (run.begin > 0 || run.duration < run.ms ? \"the part\" : \"the run\") +\n\
\" and four times the others' mean, or of a stall\";\n\
const shareWords = () => \"a group's share; line: what is due; hatched: what it lacks (over \" +\n\
timeText(Math.round(view.window)) + \", full height \" + Math.round(100 * view.top) + \"%)\";\n\
function makeLegend() {\nelement(\"legend\").replaceChildren();\nfor (const [words, paint] of legendItems()) {\n\
const item = node(\"li\", \"\", element(\"legend\")), swatch = node(\"canvas\", \"\", item, { width: 30, height: 14, \"aria-hidden\": \"true\" });\n\
node(\"span\", words, item);\npaint(swatch.getContext(\"2d\"));\n}\n}\n\
const lengthWords = () => run.begin === 0 && run.duration >= run.ms ? timeText(run.duration) :\n\
momentText(0) + \" to \" + momentText(run.duration) + \" of \" + timeText(run.ms);\n\
const isEjectionShown = () => run.ended.at >= 0 && run.ended.at <= run.duration;\nfunction fillTitle() {\n\
element(\"title\").textContent = document.title = run.policy + \" on \" + run.workload;\n\
element(\"ended\").textContent = endedWords();\n\
element(\"ended\").className = run.ended.at === undefined ? \"fine\" : \"wrong\";\n\
const count = (number, one, many = one + \"s\") => number.toLocaleString(\"en\") + \" \" + (number === 1 ? one : many);\n\
element(\"facts\").textContent = [count(run.processors, \"CPU\"), count(run.tasks.length, \"task\"), lengthWords(),\n\
...(run.isMerged ? [] : [count(run.count, \"stretch\", \"stretches\")])].join(\" \u{b7} \");\n\
if (run.isMerged) tellMerged();\nelement(\"ejection\").hidden = !isEjectionShown();\n\
element(\"facts\").title = element(\"facts\").textContent;\nelement(\"worst\").disabled = run.worst.length === 0;\n\
element(\"nothing\").hidden = run.ranBefore[run.count] > 0;\n\
const where = run.begin > 0 || run.duration < run.ms ? \"in this part\" : \"in this run\";\n\
element(\"nothing\").textContent = run.count > 0 ? \"No task ran \" + where + \".\" : \"No task ran or waited \" + where + \".\";\n\
}\nfunction tellMerged() {\n\
element(\"merged\").textContent = \"Stretches that together last at most \" + timeText(run.together) + \" are drawn as one, \" +\n\
\"without their CPUs and queues. What waited and is due is estimated. scxsim view-part has all of a part.\";\n\
element(\"merged\").hidden = false;\nelement(\"cpus\").parentNode.hidden = true;\n}\nconst LARGE = 4e6;\n\
function start() {\nrun = readRun();\nrun.isByTask = isByTask();\nview.until = run.duration;\n\
const mean = run.cpuFrom.length ? run.cpuBefore[run.cpuFrom.length] / run.cpuFrom.length : 1;\n\
view.window = Math.min(run.duration / 4, Math.max(10 * mean / Math.min(4, run.processors), run.duration / 150));\n\
if (run.processors > MOST_CPUS || run.isMerged) view.folded.add(\"cpus\");\n\
if (run.processors > MOST_CPUS || run.tracks.length > 4 || run.tasks.length > 64) view.folded.add(\"queues\");\n\
foldLargest();\nconst most = Math.max(0, ...run.groups.map((group) => Math.max(group.share, group.due)));\n\
view.top = most > 0.5 || most === 0 ? 1 : Math.ceil(most * 15) / 10;\n\
palette = makePalette(matchMedia(\"(prefers-color-scheme: dark)\").matches);\nfillTitle();\nfillWaits();\n\
fillNames();\nmakeLegend();\nlisten();\nelement(\"loading\").remove();\nresize();\nshow(0, run.duration);\n\
fillFigures();\nfollowLink();\nconst readBack = () => context.getImageData(0, 0, 1, 1).data[0];\n\
const figures = (task) => figuresOfTask(run, task, 0, run.duration);\n\
window.scxsim = { run, view, palette, draw, show, zoom, pan, goTo, fold, place, settle, readBack, figures };\n}\n\
if (text(\"stretches\").length > LARGE) requestAnimationFrame(() => setTimeout(start));\nelse start();\n</script>\n\
</body>\n</html>\n";
