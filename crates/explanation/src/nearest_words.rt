//! What is often meant by a word that begins no form of its place, or a form with other arguments.

const STREAM: &str = "A stream is stream(MODE, COL, ..), and stands first.";

const LET: &str = "A let is let(NAME, QUERY), and stands between the stream and the main.";

const MAIN: &str = "A main is main(QUERY), and stands last.";

const FIXED: &str = "fixed has a number: in fixed(2), up to two digits stand after the point.";

const DECIMALS: &str =
    "Numbers with a point are fixed(N), with up to N digits after it: 12.50 in fixed(2).";

const TEXTS: &str = "A column of texts is of the kind text.";

const INTEGERS: &str = "A column of whole numbers is of the kind int.";

const TIMES: &str = "A time is an int, as in seconds, or a text.";

const SUM: &str = "A sum is iter(atom(any, NAME), 0, add(x, y)).";

const COUNT: &str = "A count is iter(atom(any, 1), 0, add(x, y)).";

const GREATEST: &str =
    "The greatest from NUM on is iter(atom(any, NAME), NUM, max(x, y)); the least has min.";

const LAST: &str = "The last is split(iter(atom(any, 0), 0, 0), atom(any, NAME), y).";

const MEAN: &str = "A mean is combine(F, G, div(x, y)), where F is a sum and G a count.";

const ATOM_TEST: &str = "A comparison is the test of an atom, as in atom(gt(NAME, NUM), EXPR).";

const CHOICE: &str = "or(F, G) takes two queries: of three, or(F, or(G, H)).";

const ATOM: &str = "atom(PRED, EXPR) has a test and a value, as atom(any, NAME).";

const FOLD: &str =
    "It takes two queries and an expression of their values, as split(F, G, add(x, y)).";

const ITER: &str = "iter(F, NUM, EXPR) goes from a number on, as iter(F, 0, add(x, y)).";

const APPLY: &str = "apply(F, EXPR) has an expression of its value x, as apply(F, neg(x)).";

const COMPOSE: &str =
    "compose(F, G) takes two queries: G reads the values of F, in a column called value.";

const COLLECT: &str =
    "collect(KEY, PRED, RATE, F) is a query: as in apply(T, tsum(x)) its table is read.";

const TABLES: &str =
    "Expressions have tsum(x), tcount(x), tmax(x, 0), tmin(x, 0) and tget(x, \"KEY\", 0).";

const VALUE: &str =
    "An expression is the value of an atom, as in atom(any, EXPR), or joins values.";

const KEY: &str =
    "A key of several columns is key(NAME, ..), with two to four names; that of one is its NAME.";

const ITEM: &str = "In a rate one item that meets P is item(P), as in star(item(any)).";

const ALT: &str = "or is alt(RATE, RATE).";

const SEQ: &str = "split is seq(RATE, RATE).";

const STAR: &str = "iter is star(RATE).";

const UNEQUAL: &str = "neq is ne: ne(NAME, NUM) or ne(NAME, STR).";

const ONE_OF: &str = "in is an or of two: or(eq(NAME, 500), eq(NAME, 503)).";

const PATTERN: &str = "A text is tested as a whole, by eq and ne: there are no patterns.";

const TWO_PREDICATES: &str = "It takes two predicates: of three, and(P, and(Q, R)).";

const COLUMN_TEST: &str =
    "It takes a column and then one number, as gt(NAME, 5); eq and ne also take a string.";

const RATE_ITEM: &str = "item(PRED) is a rate, of one item that meets PRED.";

const REMAINDER: &str = "mod is rem(EXPR, EXPR).";

const ADDITION: &str = "sum is add(EXPR, EXPR), and of a table tsum(NAME).";

const ENTRIES: &str = "The number of entries of a table is tcount(NAME).";

const TWO_OPERANDS: &str = "It takes two: of three, add(x, add(y, z)).";

const RECORD: &str = "A record has two to eight parts, as rec(x, y).";

const PART: &str = "part takes the name of a record and which part, from 1: part(x, 1).";

const IF: &str = "if(CMP, E, F) has a value where it holds, and one where it does not.";

const IF_TEST: &str = "An if has no and, or or not: nest one if in another.";

const IF_COMPARISON: &str = "A comparison is the test of an if, as in if(gt(x, 0), 1, 0).";

const UNEQUAL_EXPR: &str = "neq is ne(EXPR, EXPR).";

const SIGN: &str = "A number may have a sign, as -1.";

pub(crate) const TOPS: [[&str; 2]; 3] = [["stream", STREAM], ["let", LET], ["main", MAIN]];

pub(crate) const KINDS: [[&str; 2]; 16] = [
    ["fixed", FIXED],
    ["float", DECIMALS],
    ["double", DECIMALS],
    ["decimal", DECIMALS],
    ["real", DECIMALS],
    ["number", DECIMALS],
    ["numeric", DECIMALS],
    ["string", TEXTS],
    ["str", TEXTS],
    ["char", TEXTS],
    ["varchar", TEXTS],
    ["integer", INTEGERS],
    ["long", INTEGERS],
    ["date", TIMES],
    ["time", TIMES],
    ["timestamp", TIMES],
];

pub(crate) const QUERIES: [[&str; 2]; 39] = [
    ["sum", SUM],
    ["total", SUM],
    ["count", COUNT],
    ["max", GREATEST],
    ["min", GREATEST],
    ["last", LAST],
    ["mean", MEAN],
    ["avg", MEAN],
    ["average", MEAN],
    ["lt", ATOM_TEST],
    ["le", ATOM_TEST],
    ["gt", ATOM_TEST],
    ["ge", ATOM_TEST],
    ["eq", ATOM_TEST],
    ["ne", ATOM_TEST],
    ["or", CHOICE],
    ["atom", ATOM],
    ["split", FOLD],
    ["combine", FOLD],
    ["iter", ITER],
    ["apply", APPLY],
    ["compose", COMPOSE],
    ["collect", COLLECT],
    ["tsum", TABLES],
    ["tcount", TABLES],
    ["tmax", TABLES],
    ["tmin", TABLES],
    ["tget", TABLES],
    ["add", VALUE],
    ["sub", VALUE],
    ["mul", VALUE],
    ["div", VALUE],
    ["rem", VALUE],
    ["neg", VALUE],
    ["abs", VALUE],
    ["if", VALUE],
    ["rec", VALUE],
    ["part", VALUE],
    ["let", LET],
];

pub(crate) const KEYS: [[&str; 2]; 5] = [
    ["key", KEY],
    ["keys", KEY],
    ["rec", KEY],
    ["pair", KEY],
    ["tuple", KEY],
];

pub(crate) const RATES: [[&str; 2]; 11] = [
    ["any", ITEM],
    ["lt", ITEM],
    ["le", ITEM],
    ["gt", ITEM],
    ["ge", ITEM],
    ["eq", ITEM],
    ["ne", ITEM],
    ["not", ITEM],
    ["or", ALT],
    ["split", SEQ],
    ["iter", STAR],
];

pub(crate) const PREDICATES: [[&str; 2]; 14] = [
    ["neq", UNEQUAL],
    ["in", ONE_OF],
    ["like", PATTERN],
    ["contains", PATTERN],
    ["prefix", PATTERN],
    ["and", TWO_PREDICATES],
    ["or", TWO_PREDICATES],
    ["lt", COLUMN_TEST],
    ["le", COLUMN_TEST],
    ["gt", COLUMN_TEST],
    ["ge", COLUMN_TEST],
    ["eq", COLUMN_TEST],
    ["ne", COLUMN_TEST],
    ["item", RATE_ITEM],
];

pub(crate) const EXPRESSIONS: [[&str; 2]; 25] = [
    ["mod", REMAINDER],
    ["sum", ADDITION],
    ["count", ENTRIES],
    ["add", TWO_OPERANDS],
    ["sub", TWO_OPERANDS],
    ["mul", TWO_OPERANDS],
    ["div", TWO_OPERANDS],
    ["rem", TWO_OPERANDS],
    ["min", TWO_OPERANDS],
    ["max", TWO_OPERANDS],
    ["rec", RECORD],
    ["record", RECORD],
    ["tuple", RECORD],
    ["pair", RECORD],
    ["part", PART],
    ["if", IF],
    ["and", IF_TEST],
    ["or", IF_TEST],
    ["not", IF_TEST],
    ["lt", IF_COMPARISON],
    ["le", IF_COMPARISON],
    ["gt", IF_COMPARISON],
    ["ge", IF_COMPARISON],
    ["eq", IF_COMPARISON],
    ["ne", IF_COMPARISON],
];

pub(crate) const COMPARISONS: [[&str; 2]; 4] = [
    ["neq", UNEQUAL_EXPR],
    ["and", IF_TEST],
    ["or", IF_TEST],
    ["not", IF_TEST],
];

pub(crate) const NUMBERS: [[&str; 2]; 1] = [["neg", SIGN]];
