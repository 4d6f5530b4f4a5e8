//! The names of operators.
ghost use Rattle.std.specs.Prelude.{◌≡◌, ◌<◌, ◌≤◌, length, slice_get, Some};
ghost use Rattle.ps_names.specs.Operators.{operator_names, names_of, stack_operators, number_operators, bit_operators, text_operators, dict_operators, array_operators, control_operators, file_operators, memory_operators, matrix_operators, line_operators, colour_operators, path_operators, paint_operators, font_operators, error_names};

use crate::op::{NAME_LIMIT, Op};
use crate::places::{
    ADD, ARRAY, CURRENTFILE, DEFINEFONT, DICT, EXEC, FILL, FIRST_DEFAULT_ENTRY, GSAVE, MATRIX,
    NEWPATH, OPERATOR_COUNT, RAND, SAVE, SETGRAY, STRING,
};

/// The operand stack.
static STACK_NAMES: [&[u8]; 12] = [
    b"pop",
    b"exch",
    b"dup",
    b"count",
    b"clear",
    b"index",
    b"roll",
    b"mark",
    b"[",
    b"<<",
    b"cleartomark",
    b"counttomark",
];

/// Arithmetic.
static NUMBER_NAMES: [&[u8]; 16] = [
    b"add",
    b"sub",
    b"mul",
    b"div",
    b"idiv",
    b"mod",
    b"abs",
    b"neg",
    b"ceiling",
    b"floor",
    b"round",
    b"truncate",
    b"sqrt",
    b"sin",
    b"cos",
    b"atan",
];

/// Random numbers, comparisons and bits.
static BIT_NAMES: [&[u8]; 14] = [
    b"rand",
    b"srand",
    b"rrand",
    b"eq",
    b"ne",
    b"gt",
    b"ge",
    b"lt",
    b"le",
    b"and",
    b"or",
    b"xor",
    b"not",
    b"bitshift",
];

/// Strings and messages.
static TEXT_NAMES: [&[u8]; 13] = [
    b"string",
    b"search",
    b"anchorsearch",
    b"cvs",
    b"cvrs",
    b"cvn",
    b"cvi",
    b"cvr",
    b"print",
    b"=",
    b"==",
    b"stack",
    b"pstack",
];

/// Dictionaries.
static DICT_NAMES: [&[u8]; 19] = [
    b"dict",
    b">>",
    b"length",
    b"maxlength",
    b"get",
    b"put",
    b"copy",
    b"begin",
    b"end",
    b"def",
    b"load",
    b"store",
    b"known",
    b"where",
    b"undef",
    b"currentdict",
    b"countdictstack",
    b"cleardictstack",
    b"dictstack",
];

/// Arrays, types and attributes.
static ARRAY_NAMES: [&[u8]; 20] = [
    b"array",
    b"]",
    b"packedarray",
    b"setpacking",
    b"currentpacking",
    b"getinterval",
    b"putinterval",
    b"aload",
    b"astore",
    b"type",
    b"cvlit",
    b"cvx",
    b"xcheck",
    b"executeonly",
    b"readonly",
    b"noaccess",
    b"rcheck",
    b"wcheck",
    b"gcheck",
    b"bind",
];

/// Control.
static CONTROL_NAMES: [&[u8]; 11] = [
    b"exec", b"if", b"ifelse", b"for", b"repeat", b"loop", b"forall", b"exit", b"stop", b"quit",
    b"stopped",
];

/// Files.
static FILE_NAMES: [&[u8]; 11] = [
    b"currentfile",
    b"status",
    b"bytesavailable",
    b"read",
    b"readstring",
    b"readhexstring",
    b"readline",
    b"token",
    b"closefile",
    b"flushfile",
    b"flush",
];

/// Memory and time.
static MEMORY_NAMES: [&[u8]; 8] = [
    b"save",
    b"restore",
    b"setglobal",
    b"currentglobal",
    b"vmstatus",
    b"vmreclaim",
    b"realtime",
    b"usertime",
];

/// Matrices.
static MATRIX_NAMES: [&[u8]; 16] = [
    b"matrix",
    b"identmatrix",
    b"defaultmatrix",
    b"currentmatrix",
    b"setmatrix",
    b"initmatrix",
    b"translate",
    b"scale",
    b"rotate",
    b"concat",
    b"concatmatrix",
    b"invertmatrix",
    b"transform",
    b"dtransform",
    b"itransform",
    b"idtransform",
];

/// The graphics state and lines.
static LINE_NAMES: [&[u8]; 18] = [
    b"gsave",
    b"grestore",
    b"grestoreall",
    b"initgraphics",
    b"setlinewidth",
    b"setlinecap",
    b"setlinejoin",
    b"setmiterlimit",
    b"setflat",
    b"setstrokeadjust",
    b"currentlinewidth",
    b"currentlinecap",
    b"currentlinejoin",
    b"currentmiterlimit",
    b"currentflat",
    b"currentstrokeadjust",
    b"setdash",
    b"currentdash",
];

/// Colours and screens.
static COLOUR_NAMES: [&[u8]; 16] = [
    b"setgray",
    b"setrgbcolor",
    b"setcmykcolor",
    b"currentgray",
    b"currentrgbcolor",
    b"currentcmykcolor",
    b"setcolorspace",
    b"currentcolorspace",
    b"setcolor",
    b"currentcolor",
    b"setscreen",
    b"currentscreen",
    b"settransfer",
    b"currenttransfer",
    b"sethalftone",
    b"currenthalftone",
];

/// Paths and clips.
static PATH_NAMES: [&[u8]; 19] = [
    b"newpath",
    b"currentpoint",
    b"moveto",
    b"rmoveto",
    b"lineto",
    b"rlineto",
    b"curveto",
    b"rcurveto",
    b"arc",
    b"arcn",
    b"closepath",
    b"flattenpath",
    b"clippath",
    b"pathbbox",
    b"pathforall",
    b"initclip",
    b"clip",
    b"eoclip",
    b"rectclip",
];

/// Painting and images.
static PAINT_NAMES: [&[u8]; 10] = [
    b"fill",
    b"eofill",
    b"stroke",
    b"rectfill",
    b"rectstroke",
    b"erasepage",
    b"showpage",
    b"copypage",
    b"image",
    b"imagemask",
];

/// Fonts.
static FONT_NAMES: [&[u8]; 16] = [
    b"definefont",
    b"undefinefont",
    b"findfont",
    b"scalefont",
    b"makefont",
    b"setfont",
    b"currentfont",
    b"selectfont",
    b"show",
    b"ashow",
    b"widthshow",
    b"awidthshow",
    b"kshow",
    b"stringwidth",
    b"setcharwidth",
    b"setcachedevice",
];

/// The default entries of errors.
static ERROR_NAMES: [&[u8]; 20] = [
    b"dictstackoverflow",
    b"dictstackunderflow",
    b"execstackoverflow",
    b"invalidaccess",
    b"invalidexit",
    b"invalidfont",
    b"invalidrestore",
    b"ioerror",
    b"limitcheck",
    b"nocurrentpoint",
    b"rangecheck",
    b"stackoverflow",
    b"stackunderflow",
    b"syntaxerror",
    b"timeout",
    b"typecheck",
    b"undefined",
    b"undefinedresult",
    b"unmatchedmark",
    b"VMerror",
];

/// The name of an operator.
pub fn op_name(op: Op) -> &'static [u8]
    ensures name { slice_get operator_names op ≡ Some result.now }
    ensures short { length result.now ≤ NAME_LIMIT }
{
    name_at(op.index() as usize)
}

fn name_at(place: usize) -> &'static [u8]
    requires { place < OPERATOR_COUNT }
    ensures name { slice_get operator_names place ≡ Some result.now }
    ensures short { length result.now ≤ NAME_LIMIT }
{
    if place < ADD as usize {
        stack_name(place)
    } else if place < RAND as usize {
        number_name(place - ADD as usize)
    } else if place < STRING as usize {
        bit_name(place - RAND as usize)
    } else if place < DICT as usize {
        text_name(place - STRING as usize)
    } else if place < ARRAY as usize {
        dict_name(place - DICT as usize)
    } else if place < EXEC as usize {
        array_name(place - ARRAY as usize)
    } else if place < CURRENTFILE as usize {
        control_name(place - EXEC as usize)
    } else if place < SAVE as usize {
        file_name(place - CURRENTFILE as usize)
    } else if place < MATRIX as usize {
        memory_name(place - SAVE as usize)
    } else if place < GSAVE as usize {
        matrix_name(place - MATRIX as usize)
    } else if place < SETGRAY as usize {
        line_name(place - GSAVE as usize)
    } else if place < NEWPATH as usize {
        colour_name(place - SETGRAY as usize)
    } else if place < FILL as usize {
        path_name(place - NEWPATH as usize)
    } else if place < DEFINEFONT as usize {
        paint_name(place - FILL as usize)
    } else if place < FIRST_DEFAULT_ENTRY as usize {
        font_name(place - DEFINEFONT as usize)
    } else {
        error_name(place - FIRST_DEFAULT_ENTRY as usize)
    }
}

fn stack_name(place: usize) -> &'static [u8]
    requires { place < 12 }
    ensures name { slice_get (names_of stack_operators) place ≡ Some result.now }
    ensures short { length result.now ≤ NAME_LIMIT }
{
    STACK_NAMES[place]
}

fn number_name(place: usize) -> &'static [u8]
    requires { place < 16 }
    ensures name { slice_get (names_of number_operators) place ≡ Some result.now }
    ensures short { length result.now ≤ NAME_LIMIT }
{
    NUMBER_NAMES[place]
}

fn bit_name(place: usize) -> &'static [u8]
    requires { place < 14 }
    ensures name { slice_get (names_of bit_operators) place ≡ Some result.now }
    ensures short { length result.now ≤ NAME_LIMIT }
{
    BIT_NAMES[place]
}

fn text_name(place: usize) -> &'static [u8]
    requires { place < 13 }
    ensures name { slice_get (names_of text_operators) place ≡ Some result.now }
    ensures short { length result.now ≤ NAME_LIMIT }
{
    TEXT_NAMES[place]
}

fn dict_name(place: usize) -> &'static [u8]
    requires { place < 19 }
    ensures name { slice_get (names_of dict_operators) place ≡ Some result.now }
    ensures short { length result.now ≤ NAME_LIMIT }
{
    DICT_NAMES[place]
}

fn array_name(place: usize) -> &'static [u8]
    requires { place < 20 }
    ensures name { slice_get (names_of array_operators) place ≡ Some result.now }
    ensures short { length result.now ≤ NAME_LIMIT }
{
    ARRAY_NAMES[place]
}

fn control_name(place: usize) -> &'static [u8]
    requires { place < 11 }
    ensures name { slice_get (names_of control_operators) place ≡ Some result.now }
    ensures short { length result.now ≤ NAME_LIMIT }
{
    CONTROL_NAMES[place]
}

fn file_name(place: usize) -> &'static [u8]
    requires { place < 11 }
    ensures name { slice_get (names_of file_operators) place ≡ Some result.now }
    ensures short { length result.now ≤ NAME_LIMIT }
{
    FILE_NAMES[place]
}

fn memory_name(place: usize) -> &'static [u8]
    requires { place < 8 }
    ensures name { slice_get (names_of memory_operators) place ≡ Some result.now }
    ensures short { length result.now ≤ NAME_LIMIT }
{
    MEMORY_NAMES[place]
}

fn matrix_name(place: usize) -> &'static [u8]
    requires { place < 16 }
    ensures name { slice_get (names_of matrix_operators) place ≡ Some result.now }
    ensures short { length result.now ≤ NAME_LIMIT }
{
    MATRIX_NAMES[place]
}

fn line_name(place: usize) -> &'static [u8]
    requires { place < 18 }
    ensures name { slice_get (names_of line_operators) place ≡ Some result.now }
    ensures short { length result.now ≤ NAME_LIMIT }
{
    LINE_NAMES[place]
}

fn colour_name(place: usize) -> &'static [u8]
    requires { place < 16 }
    ensures name { slice_get (names_of colour_operators) place ≡ Some result.now }
    ensures short { length result.now ≤ NAME_LIMIT }
{
    COLOUR_NAMES[place]
}

fn path_name(place: usize) -> &'static [u8]
    requires { place < 19 }
    ensures name { slice_get (names_of path_operators) place ≡ Some result.now }
    ensures short { length result.now ≤ NAME_LIMIT }
{
    PATH_NAMES[place]
}

fn paint_name(place: usize) -> &'static [u8]
    requires { place < 10 }
    ensures name { slice_get (names_of paint_operators) place ≡ Some result.now }
    ensures short { length result.now ≤ NAME_LIMIT }
{
    PAINT_NAMES[place]
}

fn font_name(place: usize) -> &'static [u8]
    requires { place < 16 }
    ensures name { slice_get (names_of font_operators) place ≡ Some result.now }
    ensures short { length result.now ≤ NAME_LIMIT }
{
    FONT_NAMES[place]
}

pub(crate) fn error_name(place: usize) -> &'static [u8]
    requires { place < 20 }
    ensures name { slice_get error_names place ≡ Some result.now }
    ensures short { length result.now ≤ NAME_LIMIT }
{
    ERROR_NAMES[place]
}
