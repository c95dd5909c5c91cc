//! The page for people: `page.html`, from which `tools/page` writes this file.

/// The page.
pub const PAGE: &str = "<!doctype html>
<html lang=\"en\">
<head>
<meta charset=\"utf-8\">
<meta name=\"viewport\" content=\"width=device-width, initial-scale=1\">
<title>zqueue</title>
<link rel=\"icon\" href=\"data:,\">
<style>
:root { color-scheme: light dark; --back: #f6f7f9; --card: #fff; --line: #e3e6ea; --text: #1b2330;
  --dim: #66707f; --good: #1a7f4b; --warn: #a15c00; --bad: #b3261e; --bar: #3b6fd4; --soft: #e8effc; }
@media (prefers-color-scheme: dark) {
  :root { --back: #12161c; --card: #1a2028; --line: #2b333e; --text: #e4e8ee; --dim: #93a0b1;
    --good: #4cc38a; --warn: #e5a23d; --bad: #f2716b; --bar: #6f9bf0; --soft: #22304a; } }
* { box-sizing: border-box; }
body { margin: 0; background: var(--back); color: var(--text); font: 14px/1.45 system-ui, sans-serif; }
main, header { max-width: 1180px; margin: 0 auto; padding: 0 20px; }
header { display: flex; flex-wrap: wrap; align-items: center; gap: 6px 14px; padding-top: 20px; }
h1 { font-size: 20px; margin: 0; letter-spacing: -.01em; }
h2 { font-size: 12px; margin: 0 0 8px; color: var(--dim); text-transform: uppercase; letter-spacing: .06em; }
.dim { color: var(--dim); } .right { margin-left: auto; }
.badge { padding: 1px 9px; border-radius: 99px; font-size: 12px; font-weight: 600; border: 1px solid currentColor; }
.good { color: var(--good); } .warn { color: var(--warn); } .bad { color: var(--bad); }
.tiles { display: grid; grid-template-columns: repeat(auto-fit, minmax(142px, 1fr)); gap: 10px; margin: 16px 0 10px; }
.card { background: var(--card); border: 1px solid var(--line); border-radius: 8px; padding: 12px 14px; }
.tile .value { font-size: 23px; font-weight: 600; line-height: 1.25; font-variant-numeric: tabular-nums; white-space: nowrap; }
.tile .value small { font-size: 13px; font-weight: 400; color: var(--dim); }
.tile svg { display: block; width: 100%; height: 26px; margin-top: 4px; }
.tile .note { min-height: 19px; font-size: 12px; color: var(--dim); white-space: nowrap; overflow: hidden; text-overflow: ellipsis; }
polyline { fill: none; stroke: var(--bar); stroke-width: 1.5; vector-effect: non-scaling-stroke; }
.grid { display: grid; grid-template-columns: repeat(2, minmax(0, 1fr)); gap: 10px; margin-bottom: 24px; }
.wide { grid-column: 1 / -1; }
@media (max-width: 860px) { .grid { grid-template-columns: minmax(0, 1fr); } }
.scroll { overflow-x: auto; }
table { width: 100%; border-collapse: collapse; font-variant-numeric: tabular-nums; }
th { text-align: right; font-weight: 500; color: var(--dim); font-size: 12px; padding: 2px 0 4px 14px; white-space: nowrap; }
td { text-align: right; padding: 4px 0 4px 14px; border-top: 1px solid var(--line); white-space: nowrap; }
th:first-child, td:first-child { padding-left: 0; }
.name { text-align: left; } td.name { max-width: 340px; overflow: hidden; text-overflow: ellipsis; }
code { font: 13px ui-monospace, monospace; }
td .track { display: inline-block; vertical-align: middle; width: 110px; height: 8px; border-radius: 4px; background: var(--soft); overflow: hidden; }
td .track i { display: block; height: 100%; background: var(--bar); }
ul { margin: 0; padding: 0; list-style: none; } li { padding: 2px 0; } li::before { content: \"\\25cf\\00a0\\00a0\"; }
.none { padding: 4px 0; color: var(--dim); }
form { display: flex; gap: 8px; margin: 16px 0 0; } [hidden] { display: none !important; }
input, button { font: inherit; padding: 5px 10px; border-radius: 6px; border: 1px solid var(--line); background: var(--card); color: inherit; }
</style>
</head>
<body>
<header>
  <h1 id=\"title\">zqueue</h1>
  <span id=\"ready\" class=\"badge dim\">&hellip;</span>
  <span id=\"about\" class=\"dim\"></span>
  <span id=\"state\" class=\"dim right\">asks the site&hellip;</span>
</header>
<main>
  <form id=\"ask\" class=\"card\" hidden>
    <label for=\"token\">This site asks for its <code>admin_token</code>.</label>
    <input id=\"token\" type=\"password\" autocomplete=\"off\" size=\"36\">
    <button>Show the site</button>
  </form>
  <div class=\"tiles\" id=\"tiles\"></div>
  <div class=\"grid\">
    <section class=\"card wide\"><h2>Warnings</h2><ul id=\"warnings\"></ul></section>
    <section class=\"card wide\"><h2>Links</h2><div id=\"links\" class=\"scroll\"></div></section>
    <section class=\"card\"><h2>Largest keys</h2><div id=\"keys\" class=\"scroll\"></div></section>
    <section class=\"card\"><h2>Commands</h2><div id=\"commands\" class=\"scroll\"></div></section>
    <section class=\"card wide\"><h2>Heaps</h2><div id=\"heaps\" class=\"scroll\"></div></section>
  </div>
</main>
<script>
\"use strict\";
const DASH = \"\\u2013\", KEPT = 120, EACH = 1000;
const at = id => document.getElementById(id);
const past = [];          // what was read before: {time, metrics}
const lines = {};         // what each tile showed, for its line

// ---- the token: from the fragment of the address, or asked for, kept for this tab alone
if (location.hash.length > 1) {
  sessionStorage.setItem(\"zqueue-token\", decodeURIComponent(location.hash.replace(/^#(token=)?/, \"\")));
  history.replaceState(null, \"\", location.pathname);
}
at(\"ask\").addEventListener(\"submit\", event => {
  event.preventDefault();
  sessionStorage.setItem(\"zqueue-token\", at(\"token\").value.trim());
  at(\"token\").value = \"\";
  turn();
});

async function ask(page) {
  const token = sessionStorage.getItem(\"zqueue-token\");
  const headers = token ? { Authorization: \"Bearer \" + token } : {};
  const answer = await fetch(page, { headers, cache: \"no-store\", signal: AbortSignal.timeout(5000) });
  return { status: answer.status, text: await answer.text() };
}

// ---- metrics: name -> [{labels, value}]
function read(text) {
  const found = {};
  for (const line of text.split(\"\\n\")) {
    const parts = /^([a-zA-Z_:][\\w:]*)(?:\\{(.*)\\})? (\\S+)/.exec(line);
    if (!parts) continue;
    const labels = {};
    for (const label of (parts[2] || \"\").matchAll(/(\\w+)=\"((?:[^\"\\\\]|\\\\.)*)\"/g)) labels[label[1]] = label[2];
    (found[parts[1]] ||= []).push({ labels, value: Number(parts[3]) });
  }
  return found;
}
const has = (row, labels) => Object.keys(labels).every(name => row.labels[name] === labels[name]);
function sum(metrics, name, labels = {}) {
  const rows = metrics && metrics[name] ? metrics[name].filter(row => has(row, labels)) : [];
  return rows.length ? rows.reduce((all, row) => all + row.value, 0) : undefined;
}
const values = (metrics, name, label) =>
  [...new Set((metrics[name] || []).map(row => row.labels[label]))].filter(value => value !== undefined);

// the most that is a second's worth of change over some seconds past
function before(seconds) {
  const now = past[past.length - 1];
  return past.find(then => now.time - then.time <= seconds * 1000 + 200) || now;
}
function rate(name, labels, seconds = 5) {
  if (past.length < 2) return undefined;
  const now = past[past.length - 1], then = before(seconds);
  const a = sum(then.metrics, name, labels), b = sum(now.metrics, name, labels);
  if (a === undefined || b === undefined || now.time === then.time) return undefined;
  return Math.max(0, b - a) / ((now.time - then.time) / 1000);
}
// the time below which so great a share of the requests of the last seconds were answered
function quantile(share, seconds = 10) {
  const now = past[past.length - 1], then = before(seconds);
  const name = \"zqueue_request_duration_seconds_bucket\";
  if (!now.metrics[name] || now === then) return undefined;
  const sums = rows => {
    const all = new Map();
    for (const row of rows || []) {
      const bound = row.labels.le === \"+Inf\" ? Infinity : Number(row.labels.le);
      all.set(bound, (all.get(bound) || 0) + row.value);
    }
    return all;
  };
  const old = sums(then.metrics[name]);
  const buckets = [...sums(now.metrics[name])].map(([bound, n]) => [bound, n - (old.get(bound) || 0)]).sort((a, b) => a[0] - b[0]);
  const total = buckets.length ? buckets[buckets.length - 1][1] : 0;
  if (!total) return undefined;
  let low = 0, count = 0;
  for (const [bound, n] of buckets) {
    if (n >= share * total) {
      if (bound === Infinity) return low;
      return low + (bound - low) * (n === count ? 1 : (share * total - count) / (n - count));
    }
    low = bound; count = n;
  }
}

// ---- numbers for people
const known = value => value !== undefined && value !== null && !Number.isNaN(value);
const whole = value => known(value) ? Math.round(value).toLocaleString(\"en-US\") : DASH;
function few(value) {
  if (!known(value)) return DASH;
  if (value > 0 && value < 10) return value.toFixed(1);
  return whole(value);
}
function size(value) {
  if (!known(value)) return DASH;
  let unit = 0;
  while (value >= 1000 && unit < 4) { value /= 1024; unit += 1; }
  return (unit && value < 100 ? value.toFixed(1) : Math.round(value)) + \"\\u00a0\" + [\"B\", \"KiB\", \"MiB\", \"GiB\", \"TiB\"][unit];
}
function time(value) {
  if (!known(value)) return DASH;
  if (value < 0.001) return Math.round(value * 1e6) + \"\\u00a0\\u00b5s\";
  if (value < 1) return (value * 1000).toFixed(value < 0.01 ? 1 : 0) + \"\\u00a0ms\";
  if (value < 120) return value.toFixed(value < 10 ? 1 : 0) + \"\\u00a0s\";
  if (value < 7200) return Math.round(value / 60) + \"\\u00a0min\";
  if (value < 172800) return Math.round(value / 3600) + \"\\u00a0h\";
  return Math.round(value / 86400) + \"\\u00a0days\";
}

// ---- what is shown
function make(tag, text, kind) {
  const made = document.createElement(tag);
  if (text !== undefined) made.textContent = text;
  if (kind) made.className = kind;
  return made;
}
function tile(id, title, value, unit, note, line) {
  let card = at(\"tile-\" + id);
  if (!card) {
    card = make(\"div\", undefined, \"card tile\");
    card.id = \"tile-\" + id;
    card.append(make(\"h2\", title), make(\"div\", \"\", \"value\"), make(\"div\", \"\", \"note\"));
    at(\"tiles\").append(card);
  }
  card.children[1].textContent = value;
  card.children[1].id = \"value-\" + id;
  if (unit && value !== DASH) card.children[1].append(\" \", make(\"small\", unit));
  card.children[2].textContent = note || \"\";
  if (!known(line) && !lines[id]) return;
  (lines[id] ||= []).push(known(line) ? line : 0);
  if (lines[id].length > KEPT) lines[id].shift();
  const top = Math.max(...lines[id], 1e-9);
  const points = lines[id].map((n, i) => ((KEPT - lines[id].length + i) * 100 / (KEPT - 1)).toFixed(2) + \",\" + (25 - 23 * n / top).toFixed(2)).join(\" \");
  const draw = tag => document.createElementNS(\"http://www.w3.org/2000/svg\", tag);
  let svg = card.querySelector(\"svg\");
  if (!svg) {
    svg = draw(\"svg\");
    svg.setAttribute(\"viewBox\", \"0 0 100 26\");
    svg.setAttribute(\"preserveAspectRatio\", \"none\");
    svg.append(draw(\"polyline\"));
    card.append(svg);
  }
  svg.firstChild.setAttribute(\"points\", points);
}
function table(id, heads, rows, nothing) {
  const place = at(id);
  if (!rows.length) return place.replaceChildren(make(\"div\", nothing, \"none\"));
  const made = make(\"table\"), head = make(\"tr\");
  heads.forEach((text, i) => head.append(make(\"th\", text, i < 1 || text === \"address\" ? \"name\" : \"\")));
  made.append(make(\"thead\"), make(\"tbody\"));
  made.tHead.append(head);
  for (const row of rows) {
    const line = make(\"tr\");
    row.forEach((cell, i) => {
      const td = make(\"td\", undefined, i < 1 || heads[i] === \"address\" ? \"name\" : \"\");
      td.append(cell);
      if (typeof cell === \"string\" && i < 1) td.title = cell;
      line.append(td);
    });
    made.tBodies[0].append(line);
  }
  place.replaceChildren(made);
}
function bar(share) {
  const track = make(\"span\", undefined, \"track\"), filled = make(\"i\");
  filled.style.width = Math.max(1, 100 * share) + \"%\";
  track.append(filled);
  return track;
}

function show(metrics, ready, peers, keys) {
  const warnings = [];
  const say = (kind, text) => warnings.push([kind, text]);
  const get = (name, labels) => sum(metrics, name, labels);
  const number = peers ? peers.site : undefined;
  const version = (metrics.zqueue_build_info || [{ labels: {} }])[0].labels.version;
  at(\"title\").textContent = \"zqueue\" + (known(number) ? \" site \" + number : \"\");
  document.title = at(\"title\").textContent;
  at(\"about\").textContent = [version ? \"version \" + version : \"\", known(get(\"zqueue_uptime_seconds\")) ? \"up \" + time(get(\"zqueue_uptime_seconds\")) : \"\"].filter(text => text).join(\" \\u00b7 \");
  at(\"ready\").textContent = ready.status === 200 ? \"ready\" : \"not ready\";
  at(\"ready\").className = \"badge \" + (ready.status === 200 ? \"good\" : \"bad\");
  if (ready.status !== 200) say(\"bad\", \"not ready: \" + ready.text.trim());

  const commands = rate(\"zqueue_commands_total\"), errors = rate(\"zqueue_command_errors_total\");
  tile(\"commands\", \"Commands\", few(commands), \"/s\", whole(get(\"zqueue_commands_total\")) + \" in all\", commands);
  tile(\"errors\", \"Errors\", few(errors), \"/s\", whole(get(\"zqueue_command_errors_total\")) + \" in all\", errors);
  const p50 = quantile(0.5), p99 = quantile(0.99);
  tile(\"time\", \"Latency p99\", time(p99), \"\", \"median \" + time(p50), p99);
  tile(\"clients\", \"Clients\", whole(get(\"zqueue_connections\")), \"\", whole(get(\"zqueue_connections_accepted_total\")) + \" accepted\", get(\"zqueue_connections\"));
  tile(\"memory\", \"Memory\", size(get(\"process_resident_memory_bytes\")), \"\", get(\"zqueue_memory_full\") ? \"full: additions refused\" : \"resident\", get(\"process_resident_memory_bytes\"));
  const lag = Math.max(...(metrics.zqueue_link_lag_operations || [{ value: NaN }]).map(row => row.value));
  tile(\"lag\", \"Greatest lag\", whole(lag), \"\", known(lag) ? \"operations\" : \"\", lag);
  tile(\"backlog\", \"Backlog\", size(get(\"zqueue_backlog_bytes\")), \"\", whole(get(\"zqueue_backlog_operations\")) + \" operations\", get(\"zqueue_backlog_bytes\"));

  // links: those of /peers, and any that only the metrics know
  const sites = (peers ? peers.peers : []).slice();
  for (const peer of values(metrics, \"zqueue_link_up\", \"peer\"))
    if (!sites.some(site => String(site.site) === peer) && get(\"zqueue_link_up\", { peer })) sites.push({ site: Number(peer), address: null, up: true });
  table(\"links\", [\"site\", \"address\", \"link\", \"lag\", \"last frame\", \"in\", \"out\", \"frames in\", \"frames out\"], sites.map(site => {
    const of = { peer: String(site.site) };
    const up = site.up || get(\"zqueue_link_up\", of) === 1;
    const silent = get(\"zqueue_link_last_frame_seconds\", of);
    if (!up) say(\"bad\", \"no link to site \" + site.site + (site.address ? \" at \" + site.address : \"\"));
    const bytes = direction => { const n = rate(\"zqueue_link_bytes_total\", { ...of, direction }); return known(n) ? size(n) + \"/s\" : DASH; };
    const frames = direction => { const n = rate(\"zqueue_link_frames_total\", { ...of, direction }); return known(n) ? few(n) + \"/s\" : DASH; };
    return [String(site.site), site.address || DASH, make(\"span\", up ? \"up\" : \"down\", up ? \"good\" : \"bad\"), whole(get(\"zqueue_link_lag_operations\", of)),
      known(silent) ? time(silent) + \" ago\" : DASH, bytes(\"in\"), bytes(\"out\"), frames(\"in\"), frames(\"out\")];
  }), \"This site has no peers.\");

  // the largest keys
  const list = keys ? keys.keys : [];
  const most = list.length ? list[0].members : 1;
  table(\"keys\", [\"key\", \"\", \"members\"], list.map(row => {
    const name = make(\"code\", row.key + (row.cut ? \"\\u2026\" : \"\"));
    name.title = row.key;
    return [name, bar(row.members / most), whole(row.members)];
  }), keys && !keys.walking ? \"This site has no keys.\" : \"The keys are looked at\\u2026\");
  if (keys && known(keys.age_ms) && !keys.whole) say(\"warn\", \"the walk over the keys was cut off after 10 s: there may be larger ones\");

  // commands and heaps
  const names = values(metrics, \"zqueue_commands_total\", \"cmd\").filter(cmd => get(\"zqueue_commands_total\", { cmd }));
  table(\"commands\", [\"command\", \"per second\", \"in all\", \"errors\"], names.map(cmd => [make(\"code\", cmd.toUpperCase()), few(rate(\"zqueue_commands_total\", { cmd })),
    whole(get(\"zqueue_commands_total\", { cmd })), whole(get(\"zqueue_command_errors_total\", { cmd }) || 0)]), \"No command is counted yet.\");
  const heaps = [...new Set([\"zqueue_vector_operations\", \"zqueue_operations_made_total\"].flatMap(name => values(metrics, name, \"heap\")))].sort((a, b) => a - b);
  table(\"heaps\", [\"heap\", \"made\", \"made per second\", \"taken\", \"taken per second\", \"operations in all\"], heaps.map(heap => [heap,
    whole(get(\"zqueue_operations_made_total\", { heap })), few(rate(\"zqueue_operations_made_total\", { heap })),
    whole(get(\"zqueue_operations_taken_total\", { heap })), few(rate(\"zqueue_operations_taken_total\", { heap })), whole(get(\"zqueue_vector_operations\", { heap }))]), \"No heap is counted yet.\");

  // warnings
  if (get(\"zqueue_memory_full\")) say(\"bad\", \"the process has more memory than max_memory: what adds is refused\");
  if (lag > 100000) say(\"warn\", \"a peer lacks \" + whole(lag) + \" operations\");
  for (const [name, text] of [[\"zqueue_dropped_frames_total\", \"frames of peers were not taken\"],
    [\"zqueue_connections_refused_total\", \"connections were refused\"]]) if (get(name)) say(\"warn\", whole(get(name)) + \" \" + text);
  if (get(\"zqueue_parked_operations\")) say(\"warn\", whole(get(\"zqueue_parked_operations\")) + \" operations of peers wait for others\");
  at(\"warnings\").replaceChildren(...(warnings.length ? warnings.map(([kind, text]) => make(\"li\", text, kind)) : [make(\"div\", \"There are none.\", \"none\")]));
}

// ---- each second
let waits = false;
async function turn() {
  if (waits) return;
  waits = true;
  try {
    const [ready, metrics, peers, keys] = await Promise.all([\"/readyz\", \"/metrics\", \"/peers\", \"/keys?n=20\"].map(ask));
    at(\"ask\").hidden = ready.status !== 401;
    if (ready.status === 401) {
      at(\"state\").textContent = sessionStorage.getItem(\"zqueue-token\") ? \"that is not the token\" : \"asks for the token\";
    } else {
      past.push({ time: performance.now(), metrics: read(metrics.status === 200 ? metrics.text : \"\") });
      if (past.length > 30) past.shift();
      const json = answer => answer.status === 200 ? JSON.parse(answer.text) : null;
      show(past[past.length - 1].metrics, ready, json(peers), json(keys));
      at(\"state\").textContent = \"as of \" + new Date().toLocaleTimeString(\"en-GB\");
      at(\"state\").className = \"dim right\";
      document.body.dataset.turns = past.length;
    }
  } catch (error) {
    at(\"state\").textContent = \"the site does not answer\";
    at(\"state\").className = \"bad right\";
  }
  waits = false;
}
turn();
setInterval(turn, EACH);
</script>
</body>
</html>
";

/// What the page may do: run the script and show the style that stand in it, and ask this port.
pub const POLICY: &str =
    "default-src 'none'; script-src 'sha256-tUD7WH+Ix00h/sa66lDPckFBUVkt3AreHoSQRtpu/+k='; style-src 'sha256-oh8LeztLFYbgR4w5cOOxJ1oHEtYhMYTh9Sr829wqRaw='; img-src data:; connect-src 'self'; base-uri 'none'; form-action 'none'; frame-ancestors 'none'";
