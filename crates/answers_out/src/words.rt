// The words of lines. A word ends in a blank or a minus where a number follows it.

pub const NOTHING: &[u8] = b"";

pub const NEWLINE: &[u8] = b"\n";

pub const BLANK: &[u8] = b" ";

pub const BAD_FRAME: &[u8] = b"bad frame";

pub const REFUSED: &[u8] = b"refused ";

pub const NOT: &[u8] = b" not";

// ── single readings ──

pub const END: &[u8] = b"end ";

pub const GOOD: &[u8] = b"characters good";

pub const BAD: &[u8] = b"characters bad ";

pub const UTF8: &[u8] = b" utf8";

pub const NO_NUMBER: &[u8] = b"number none";

pub const LARGE: &[u8] = b"number large";

pub const NUMBER: &[u8] = b"number ";

pub const MINUS: &[u8] = b"number -";

pub const FORMATTING: &[u8] = b"formatting yes";

pub const NO_FORMATTING: &[u8] = b"formatting no";

pub const NAME: &[u8] = b"name ";

// ── pieces ──

pub const START: &[u8] = b"start ";

pub const SHORT: &[u8] = b" short";

pub const OPEN: &[u8] = b" open";

pub const REFERS: &[u8] = b" refers";

pub const PLAIN: &[u8] = b" plain";

pub const FINISH: &[u8] = b"finish ";

pub const REMARK: &[u8] = b"remark ";

pub const REFER: &[u8] = b"refer ";

pub const TEXT: &[u8] = b"text ";

pub const MALFORMED: &[u8] = b"malformed";

pub const UNSUPPORTED: &[u8] = b"unsupported";

// ── plans, tables, settings ──

pub const PLANNED: &[u8] = b"planned ";

pub const FOUND: &[u8] = b"found ";

pub const WRITTEN: &[u8] = b"written";

pub const INTEGER: &[u8] = b"integer ";

pub const NEGATIVE: &[u8] = b"integer -";

pub const EVENT: &[u8] = b"event ";

pub const NO_TEXT: &[u8] = b"text -";

pub const ACCEPTED: &[u8] = b" accepted";

// ── sessions and backups ──

pub const SESSION: &[u8] = b"session ";

pub const STANDS: &[u8] = b"+";

pub const DOT: &[u8] = b".";

pub const COMMA: &[u8] = b",";

pub const DASH: &[u8] = b"-";

pub const STORED: &[u8] = b"stored ";

pub const RESTORED: &[u8] = b"restored ";
