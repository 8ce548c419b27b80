// The text of the prelude.

ghost use Rattle.std.specs.Prelude.{◌≡◌};
ghost use Rattle.ses_prelude.specs.Preludes.{prelude};

/// The functions of the common part: what all parties share is written here, and nowhere else. A call of `$` and a native's name is that operation of the machine.
pub const PRELUDE: &str = r#"function _fail(m) { throw new TypeError(m); }
function _isObject(x) { return typeof x === 'function' || typeof x === 'object' && x !== null; }
function _object(x) { return _isObject(x) ? x : _fail('not an object'); }
function _call(x) { return typeof x === 'function' ? x : _fail('not a function'); }
function _base(x) { return x === undefined || x === null ? _fail('cannot convert') : x; }
function _new(n) { if (n === undefined) _fail('not a call'); }
function _proto(n, d) { const p = n === undefined ? d : n.prototype; return _isObject(p) ? p : d; }
function _num(x, d) { return x === undefined ? d : $toNumber(x); }
function _len(o) { const n = _num(_base(o).length, 0); return n < 0 ? 0 : n; }
function _at(x, len, d) { const n = _num(x, d); return n < 0 ? n + len < 0 ? 0 : n + len : n > len ? len : n; }
function _put(o, k, v) { if (!$defineOwn(o, k, { value: v, writable: true, enumerable: true, configurable: true })) _fail('cannot define'); return o; }
function _shown(o, k) { const d = $getOwn(o, k); return d !== undefined && d.enumerable; }
function _copy(o, s) { if (_isObject(s)) for (const k of $ownKeys(s)) if (_shown(s, k)) _put(o, k, s[k]); return o; }
function _omit(s, not) { const o = {}; for (const k of $ownKeys(_object(s))) if (not.indexOf(k) < 0 && _shown(s, k)) _put(o, k, s[k]); return o; }
function _forIn(o) { const r = [], seen = new Set(); if (!_isObject(o)) return r; for (let p = o; p !== null; p = $getProto(p)) for (const k of $ownKeys(p)) if (typeof k === 'string' && !seen.has(k)) { const d = $getOwn(p, k); if (d === undefined) continue; seen.add(k); if (d.enumerable) r[r.length] = k; } return r; }
function _iter(next) { return { next, [$iterator]() { return this; } }; }
function _open(x) {
  const m = _base(x)[$iterator];
  if (typeof m !== 'function') _fail('not iterable');
  const it = _object($apply(m, x, [])), next = it.next;
  let done = false;
  const shut = () => { if (done) return; done = true; const f = it.return; if (f !== undefined && f !== null) _object($apply(f, it, [])); };
  const r = { value: undefined, shut,
    more() { if (done) return false; done = true; const s = _object($apply(next, it, [])); if (s.done) return false; r.value = s.value; done = false; return true; },
    take() { return r.more() ? r.value : undefined; },
    rest() { const a = []; while (r.more()) a[a.length] = r.value; return a; },
    quiet() { try { shut(); } catch (e) { } } };
  return r;
}
function _into(a, x) { const it = _open(x); while (it.more()) a[a.length] = it.value; return a; }
function _cut(o, a, b) { const r = []; for (let i = a; i < b; i++) r[i - a] = o[i]; return r; }
function _list(o, f) { let i = 0; return _iter(() => i < _len(o) ? { value: f(i++), done: false } : { value: undefined, done: true }); }
function harden(x) { const todo = [x], seen = new Set(); while (todo.length > 0) { const o = todo.pop(); if (!_isObject(o) || $isCommon(o) || seen.has(o)) continue; seen.add(o); Object_freeze(o); todo.push($getProto(o)); for (const k of $ownKeys(o)) { const d = $getOwn(o, k); if (d !== undefined) todo.push(d.value, d.get, d.set); } } return x; }
function Object(x) { if (new.target !== undefined && new.target !== Object) return $makeObject(_proto(new.target, Object.prototype)); return _isObject(x) ? x : x === undefined || x === null ? {} : _fail('cannot convert'); }
function Object_getPrototypeOf(o) { return $getProto(o); }
function Object_setPrototypeOf(o, p) { if (!$setProto(o, p)) _fail('cannot set'); return o; }
function Object_create(p) { return $makeObject(p); }
function Object_defineProperty(o, k, d) { if (!$defineOwn(o, k, d)) _fail('cannot define'); return o; }
function Object_defineProperties(o, s) { for (const k of $ownKeys(s)) if (_shown(s, k)) Object_defineProperty(o, k, s[k]); return o; }
function Object_getOwnPropertyDescriptor(o, k) { return $getOwn(o, k); }
function Object_getOwnPropertyNames(o) { return $ownKeys(o).filter(k => typeof k === 'string'); }
function Object_getOwnPropertySymbols(o) { return $ownKeys(o).filter(k => typeof k === 'symbol'); }
function Object_keys(o) { return Object_getOwnPropertyNames(o).filter(k => _shown(o, k)); }
function Object_values(o) { return Object_keys(o).map(k => o[k]); }
function Object_entries(o) { return Object_keys(o).map(k => [k, o[k]]); }
function Object_fromEntries(x) { const o = {}; for (const e of x) _put(o, e[0], e[1]); return o; }
function Object_assign(t, ...a) { for (const s of a) if (_isObject(s)) for (const k of $ownKeys(s)) if (_shown(s, k)) t[k] = s[k]; return t; }
function Object_freeze(o) { if (!_isObject(o)) return o; if (!$preventExt(o)) _fail('cannot define'); for (const k of $ownKeys(o)) { const d = $getOwn(o, k); if (d !== undefined) Object_defineProperty(o, k, 'value' in d ? { configurable: false, writable: false } : { configurable: false }); } return o; }
function Object_isFrozen(o) { return !_isObject(o) || !$isExtensible(o) && $ownKeys(o).every(k => { const d = $getOwn(o, k); return d === undefined || !d.configurable && !d.writable; }); }
function Object_isExtensible(o) { return _isObject(o) && $isExtensible(o); }
function Object_preventExtensions(o) { if (_isObject(o) && !$preventExt(o)) _fail('cannot define'); return o; }
function Object_is(a, b) { return a === b; }
function Object_hasOwn(o, k) { return $getOwn(o, k) !== undefined; }
function Object_prototype_hasOwnProperty(k) { return $getOwn(this, k) !== undefined; }
function Object_prototype_isPrototypeOf(o) { if (_isObject(o)) for (let p = $getProto(o); p !== null; p = $getProto(p)) if (p === this) return true; return false; }
function Object_prototype_toString() { return '[object ' + $classOf(this) + ']'; }
function Object_prototype_valueOf() { return _base(this); }
function Function() { _fail('no evaluation'); }
function Function_prototype_call(t, ...a) { return $apply(this, t, a); }
function Function_prototype_apply(t, a) { return $apply(this, t, a === undefined || a === null ? [] : _cut(a, 0, _len(a))); }
function Function_prototype_bind(t, ...a) { return $bind(this, t, a); }
function Function_prototype_toString() { _call(this); return 'function () { [native code] }'; }
function Array(...a) { const one = a.length === 1 && typeof a[0] === 'number', n = one ? a[0] : 0; if (n < 0 || n > 4294967295) throw new RangeError('invalid length'); const r = $makeArray(_proto(new.target, Array.prototype), n); return one ? r : _into(r, a); }
function Array_isArray(x) { return $isArray(x); }
function Array_of(...a) { return a; }
function Array_from(x, f) { const r = _base(x)[$iterator] !== undefined ? _into([], x) : _cut(x, 0, _len(x)); return f === undefined ? r : r.map((v, i) => f(v, i)); }
function Array_prototype_push(...v) { const n = _len(this); for (let i = 0; i < v.length; i++) this[n + i] = v[i]; return this.length = n + v.length; }
function Array_prototype_pop() { const n = _len(this); if (n === 0) { this.length = 0; return undefined; } const v = this[n - 1]; delete this[n - 1]; this.length = n - 1; return v; }
function Array_prototype_splice(s, d, ...v) { const n = _len(this), a = _at(s, n, 0), b = _at(a + (_num(d, n) < 0 ? 0 : _num(d, n)), n, n), out = _cut(this, a, b), end = _cut(this, b, n); this.length = a; $apply(Array_prototype_push, this, v); $apply(Array_prototype_push, this, end); return out; }
function Array_prototype_shift() { return $apply(Array_prototype_splice, this, [0, 1])[0]; }
function Array_prototype_unshift(...v) { $apply(Array_prototype_splice, this, [0, 0, ...v]); return _len(this); }
function Array_prototype_slice(a, b) { const n = _len(this); return _cut(this, _at(a, n, 0), _at(b, n, n)); }
function Array_prototype_concat(...v) { const r = _cut(this, 0, _len(this)); for (const x of v) if ($isArray(x)) $apply(Array_prototype_push, r, _cut(x, 0, _len(x))); else r[r.length] = x; return r; }
function Array_prototype_join(x) { const s = x === undefined ? ',' : $toText(x); let r = ''; for (let i = 0, n = _len(this); i < n; i++) { const v = this[i]; r += (i > 0 ? s : '') + (v === undefined || v === null ? '' : $toText(v)); } return r; }
function Array_prototype_toString() { return $apply(Array_prototype_join, this, []); }
function Array_prototype_indexOf(x, f) { for (let n = _len(this), i = _at(f, n, 0); i < n; i++) if (this[i] === x) return i; return -1; }
function Array_prototype_includes(x) { return $apply(Array_prototype_indexOf, this, [x]) >= 0; }
function Array_prototype_map(f, t) { _call(f); const r = []; for (let i = 0, n = _len(this); i < n; i++) r[i] = $apply(f, t, [this[i], i, this]); return r; }
function Array_prototype_forEach(f, t) { $apply(Array_prototype_map, this, [f, t]); }
function Array_prototype_filter(f, t) { _call(f); const r = []; for (let i = 0, n = _len(this); i < n; i++) { const v = this[i]; if ($apply(f, t, [v, i, this])) r[r.length] = v; } return r; }
function Array_prototype_findIndex(f, t) { _call(f); for (let i = 0, n = _len(this); i < n; i++) if ($apply(f, t, [this[i], i, this])) return i; return -1; }
function Array_prototype_find(f, t) { const i = $apply(Array_prototype_findIndex, this, [f, t]); return i < 0 ? undefined : this[i]; }
function Array_prototype_some(f, t) { return $apply(Array_prototype_findIndex, this, [f, t]) >= 0; }
function Array_prototype_every(f, t) { return $apply(Array_prototype_findIndex, this, [(v, i, a) => !$apply(f, t, [v, i, a])]) < 0; }
function Array_prototype_reduce(f, ...a) { const n = _len(this); let i = 0, r = a[0]; if (a.length === 0) { if (n === 0) _fail('empty'); r = this[0]; i = 1; } for (; i < n; i++) r = f(r, this[i], i, this); return r; }
function Array_prototype_reverse() { const n = _len(this), v = _cut(this, 0, n); for (let i = 0; i < n; i++) this[i] = v[n - 1 - i]; return this; }
function Array_prototype_sort(f) { if (f !== undefined) _fail('unsupported'); const v = _cut(this, 0, _len(this)), p = $sortTexts(v.map(x => $toText(x))); for (let i = 0; i < v.length; i++) this[i] = v[p[i]]; return this; }
function Array_prototype_keys() { return _list(this, i => i); }
function Array_prototype_values() { return _list(this, i => this[i]); }
function Array_prototype_entries() { return _list(this, i => [i, this[i]]); }
function _s(x) { return $toText(_base(x)); }
function _space(u) { return u === 32 || u >= 9 && u <= 13 || u === 160 || u === 5760 || u >= 8192 && u <= 8202 || u === 8232 || u === 8233 || u === 8239 || u === 8287 || u === 12288 || u === 65279; }
function _pad(s, n, f) { const p = f === undefined ? ' ' : $toText(f), m = _num(n, 0) - s.length; let r = ''; while (p !== '' && r.length < m) r += p; return $slice(r, 0, m); }
function String(...a) { if (new.target !== undefined) _fail('unsupported'); return a.length === 0 ? '' : $toText(a[0]); }
function String_fromCharCode(...u) { return $fromUnits(u); }
function String_prototype_charAt(i) { const n = _num(i, 0); return $slice(_s(this), n, n + 1); }
function String_prototype_charCodeAt(i) { return $unitAt(_s(this), _num(i, 0)); }
function String_prototype_slice(a, b) { const s = _s(this), n = s.length; return $slice(s, _at(a, n, 0), _at(b, n, n)); }
function String_prototype_substring(a, b) { const s = _s(this), x = _num(a, 0), y = _num(b, s.length); return x < y ? $slice(s, x, y) : $slice(s, y, x); }
function String_prototype_indexOf(t, f) { return $indexIn(_s(this), $toText(t), _num(f, 0)); }
function String_prototype_includes(t) { return $indexIn(_s(this), $toText(t), 0) >= 0; }
function String_prototype_startsWith(t) { const u = $toText(t); return $slice(_s(this), 0, u.length) === u; }
function String_prototype_endsWith(t) { const s = _s(this), u = $toText(t), n = s.length - u.length; return n >= 0 && $slice(s, n, s.length) === u; }
function String_prototype_split(x) { const s = _s(this), r = []; if (x === undefined) return [s]; const p = $toText(x); let a = 0; if (p === '') { for (; a < s.length; a++) r[a] = s[a]; return r; } for (;;) { const b = $indexIn(s, p, a); if (b < 0) { r[r.length] = $slice(s, a, s.length); return r; } r[r.length] = $slice(s, a, b); a = b + p.length; } }
function String_prototype_repeat(n) { const s = _s(this); let r = ''; if (n < 0) throw new RangeError('invalid count'); for (let i = 0; i < n; i++) r += s; return r; }
function String_prototype_trim() { const s = _s(this); let a = 0, b = s.length; while (a < b && _space($unitAt(s, a))) a++; while (a < b && _space($unitAt(s, b - 1))) b--; return $slice(s, a, b); }
function String_prototype_padStart(n, f) { const s = _s(this); return _pad(s, n, f) + s; }
function String_prototype_padEnd(n, f) { const s = _s(this); return s + _pad(s, n, f); }
function String_prototype_toLowerCase() { return $ascii(_s(this), false); }
function String_prototype_toUpperCase() { return $ascii(_s(this), true); }
function String_prototype_toString() { return _s(this); }
function String_prototype_iterator$() { const s = _s(this); let i = 0; return _iter(() => { if (i >= s.length) return { value: undefined, done: true }; const u = $unitAt(s, i), v = i + 1 < s.length ? $unitAt(s, i + 1) : 0, n = u >= 55296 && u < 56320 && v >= 56320 && v < 57344 ? 2 : 1; i += n; return { value: $slice(s, i - n, i), done: false }; }); }
function Number(...a) { if (new.target !== undefined) _fail('unsupported'); return a.length === 0 ? 0 : $toNumber(a[0]); }
function Number_isInteger(x) { return typeof x === 'number'; }
function Number_isSafeInteger(x) { return typeof x === 'number'; }
function Number_prototype_toString() { return $toText(this); }
function parseInt(x) { const s = String_prototype_trim.call($toText(x)), g = s[0] === '-'; let i = g || s[0] === '+' ? 1 : 0; const b = i; while (i < s.length && s[i] >= '0' && s[i] <= '9') i++; return i === b ? 0 / 0 : $toNumber($slice(s, 0, i)); }
function Boolean(x) { if (new.target !== undefined) _fail('unsupported'); return !!x; }
function Boolean_prototype_toString() { return $toText(this); }
function Symbol() { if (new.target !== undefined) _fail('unsupported'); return $makeSymbol(); }
function Symbol_for(t) { return $symbolFor($toText(t)); }
function Math_abs(x) { const n = $toNumber(x); return n < 0 ? -n : n; }
function Math_floor(x) { return $toNumber(x); }
function Math_trunc(x) { return $toNumber(x); }
function Math_max(...a) { return a.map(x => $toNumber(x)).reduce((m, x) => x > m ? x : m); }
function Math_min(...a) { return a.map(x => $toNumber(x)).reduce((m, x) => x < m ? x : m); }
function Error(m) { return $makeError(_proto(new.target, Error.prototype), m); }
function TypeError(m) { return $makeError(_proto(new.target, TypeError.prototype), m); }
function RangeError(m) { return $makeError(_proto(new.target, RangeError.prototype), m); }
function SyntaxError(m) { return $makeError(_proto(new.target, SyntaxError.prototype), m); }
function ReferenceError(m) { return $makeError(_proto(new.target, ReferenceError.prototype), m); }
function Error_prototype_toString() { const n = $toText(this.name), m = $toText(this.message); return m === '' ? n : n + ': ' + m; }
function _walk(m, c, f) { let i = 0; return _iter(() => { const j = $mapNext(m, c, i); if (j < 0) return { value: undefined, done: true }; i = j + 1; return { value: f($mapKeyAt(m, c, j)), done: false }; }); }
function Map(x) { _new(new.target); const m = $makeMap(_proto(new.target, Map.prototype), 'Map'); if (x !== undefined && x !== null) for (const e of x) m.set(e[0], e[1]); return m; }
function Map_prototype_get(k) { return $mapGet(this, 'Map', k); }
function Map_prototype_set(k, v) { $mapSet(this, 'Map', k, v); return this; }
function Map_prototype_has(k) { return $mapHas(this, 'Map', k); }
function Map_prototype_delete(k) { return $mapDelete(this, 'Map', k); }
function Map_prototype_clear() { $mapClear(this, 'Map'); }
function Map_prototype_get$size() { return $mapSize(this, 'Map'); }
function Map_prototype_keys() { return _walk(this, 'Map', k => k); }
function Map_prototype_values() { return _walk(this, 'Map', k => $mapGet(this, 'Map', k)); }
function Map_prototype_entries() { return _walk(this, 'Map', k => [k, $mapGet(this, 'Map', k)]); }
function Map_prototype_forEach(f, t) { for (const k of _walk(this, 'Map', k => k)) $apply(f, t, [$mapGet(this, 'Map', k), k, this]); }
function Set(x) { _new(new.target); const m = $makeMap(_proto(new.target, Set.prototype), 'Set'); if (x !== undefined && x !== null) for (const k of x) m.add(k); return m; }
function Set_prototype_add(k) { $mapSet(this, 'Set', k, k); return this; }
function Set_prototype_has(k) { return $mapHas(this, 'Set', k); }
function Set_prototype_delete(k) { return $mapDelete(this, 'Set', k); }
function Set_prototype_get$size() { return $mapSize(this, 'Set'); }
function Set_prototype_values() { return _walk(this, 'Set', k => k); }
function WeakMap() { _new(new.target); return $makeMap(_proto(new.target, WeakMap.prototype), 'WeakMap'); }
function WeakMap_prototype_get(k) { return $mapGet(this, 'WeakMap', k); }
function WeakMap_prototype_set(k, v) { $mapSet(this, 'WeakMap', _object(k), v); return this; }
function WeakMap_prototype_has(k) { return $mapHas(this, 'WeakMap', k); }
function WeakMap_prototype_delete(k) { return $mapDelete(this, 'WeakMap', k); }
function Proxy(t, h) { _new(new.target); return $makeProxy(_object(t), _object(h)); }
function Proxy_revocable(t, h) { const proxy = new Proxy(t, h); return { proxy, revoke: () => { $revoke(proxy); } }; }
function Reflect_get(o, k, r = o) { return $get(o, k, r); }
function Reflect_set(o, k, v, r = o) { return $set(o, k, v, r); }
function Reflect_has(o, k) { return $has(o, k); }
function Reflect_deleteProperty(o, k) { return $delete(o, k); }
function Reflect_ownKeys(o) { return $ownKeys(o); }
function Reflect_defineProperty(o, k, d) { return $defineOwn(o, k, d); }
function Reflect_apply(f, t, a) { return $apply(f, t, _cut(a, 0, _len(a))); }
function Reflect_construct(f, a, n = f) { return $construct(f, _cut(a, 0, _len(a)), n); }
function Compartment(o = {}) { _new(new.target); const g = Object_entries(o.globals === undefined ? {} : o.globals), m = Object_entries(o.modules === undefined ? {} : o.modules), c = $makeCompartment(_proto(new.target, Compartment.prototype), g.map(e => e[0]), g.map(e => e[1]), m.map(e => e[0]), m.map(e => e[1])); return _put(c, 'name', o.name === undefined ? '' : $toText(o.name)); }
function Compartment_prototype_evaluate(t) { return $evaluate(this, t); }
function Compartment_prototype_get$globalThis() { return $compartmentGlobal(this); }
function _quote(s) { let r = '"', b = 0; for (let i = 0; i < s.length; i++) { const u = $unitAt(s, i), k = $indexIn('"\\\b\f\n\r\t', s[i], 0); if (k < 0 && u > 31) continue; r += $slice(s, b, i) + (k < 0 ? '\\u00' + (u > 15 ? '1' : '0') + '0123456789abcdef'[u % 16] : '\\' + '"\\bfnrt'[k]); b = i + 1; } return r + $slice(s, b, s.length) + '"'; }
function JSON_stringify(v, f, sp) {
  if (f !== undefined && f !== null) _fail('unsupported');
  const gap = typeof sp === 'number' ? $slice('          ', 0, sp) : typeof sp === 'string' ? $slice(sp, 0, 10) : '', open = new Set();
  const out = (x, d) => {
    if (x === null || typeof x === 'boolean' || typeof x === 'number') return $toText(x);
    if (typeof x === 'string') return _quote(x);
    if (typeof x !== 'object') return undefined;
    if (open.has(x)) _fail('cyclic');
    open.add(x);
    const e = d + gap, a = $isArray(x), p = [];
    if (a) for (let i = 0; i < x.length; i++) { const t = out(x[i], e); p[i] = t === undefined ? 'null' : t; }
    else for (const k of Object_keys(x)) { const t = out(x[k], e); if (t !== undefined) p[p.length] = _quote(k) + (gap === '' ? ':' : ': ') + t; }
    open.delete(x);
    const b = a ? '[' : '{', c = a ? ']' : '}';
    return p.length === 0 ? b + c : gap === '' ? b + p.join(',') + c : b + '\n' + e + p.join(',\n' + e) + '\n' + d + c;
  };
  return out(v, '');
}
function JSON_parse(x) {
  const s = $toText(x);
  let i = 0;
  const bad = () => { throw new SyntaxError('bad JSON'); };
  const at = () => $slice(s, i, i + 1);
  const ws = () => { while (at() === ' ' || at() === '\n' || at() === '\r' || at() === '\t') i++; };
  const word = (w, v) => { if ($slice(s, i, i + w.length) !== w) bad(); i += w.length; return v; };
  const str = () => { let r = ''; i++; for (;;) { const c = at(); if (c < ' ') bad(); i++; if (c === '"') return r; if (c !== '\\') { r += c; continue; } const e = at(), k = e === '' ? -1 : $indexIn('"\\/bfnrt', e, 0); i++; if (e === 'u') { for (let j = 0; j < 4; j++) if (i + j >= s.length || $indexIn('0123456789abcdefABCDEF', s[i + j], 0) < 0) bad(); r += $fromUnits([$toNumber('0x' + $slice(s, i, i + 4))]); i += 4; } else if (k >= 0) r += '"\\/\b\f\n\r\t'[k]; else bad(); } };
  const run = () => { const k = i; while (at() >= '0' && at() <= '9') i++; if (i === k) bad(); };
  const num = () => { const j = i; if (at() === '-') i++; if (at() === '0') i++; else run(); if (at() === '.') { i++; run(); } if (at() === 'e' || at() === 'E') { i++; if (at() === '-' || at() === '+') i++; run(); } return $toNumber($slice(s, j, i)); };
  const val = () => {
    ws();
    const c = at();
    let r;
    if (c === '{') { r = {}; i++; ws(); if (at() === '}') i++; else for (;;) { ws(); if (at() !== '"') bad(); const k = str(); ws(); word(':'); _put(r, k, val()); if (at() === ',') i++; else { word('}'); break; } } }
    else if (c === '[') { r = []; i++; ws(); if (at() === ']') i++; else for (;;) { r[r.length] = val(); if (at() === ',') i++; else { word(']'); break; } } }
    else r = c === '"' ? str() : c === 't' ? word('true', true) : c === 'f' ? word('false', false) : c === 'n' ? word('null', null) : num();
    ws();
    return r;
  };
  const v = val();
  if (i < s.length) bad();
  return v;
}
"#;

/// The text of the prelude.
#[tactic(auto, unfolding(crate::specs::Preludes::prelude))]
pub fn prelude_text() -> &'static str
    ensures { result.now ≡ prelude }
{
    PRELUDE
}
