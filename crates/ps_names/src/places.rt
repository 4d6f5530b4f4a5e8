//! The places of the operators in their list. The default entries of errors follow these, in the order of the errors'
//! names.
ghost use Rattle.std.specs.Prelude.{◌≡◌, map};
ghost use Rattle.std.specs.List.{range_with_len};
ghost use Rattle.ps_names.specs.Operators.{operators};

// The operand stack.
pub const POP: u16 = 0;

pub const EXCH: u16 = 1;

pub const DUP: u16 = 2;

pub const COUNT: u16 = 3;

pub const CLEAR: u16 = 4;

pub const INDEX: u16 = 5;

pub const ROLL: u16 = 6;

pub const MARK: u16 = 7;

pub const LEFT_BRACKET: u16 = 8;

pub const LEFT_ANGLES: u16 = 9;

pub const CLEARTOMARK: u16 = 10;

pub const COUNTTOMARK: u16 = 11;

// Arithmetic.
pub const ADD: u16 = 12;

pub const SUB: u16 = 13;

pub const MUL: u16 = 14;

pub const DIV: u16 = 15;

pub const IDIV: u16 = 16;

pub const MOD: u16 = 17;

pub const ABS: u16 = 18;

pub const NEG: u16 = 19;

pub const CEILING: u16 = 20;

pub const FLOOR: u16 = 21;

pub const ROUND: u16 = 22;

pub const TRUNCATE: u16 = 23;

pub const SQRT: u16 = 24;

pub const SIN: u16 = 25;

pub const COS: u16 = 26;

pub const ATAN: u16 = 27;

// Random numbers, comparisons and bits.
pub const RAND: u16 = 28;

pub const SRAND: u16 = 29;

pub const RRAND: u16 = 30;

pub const EQ: u16 = 31;

pub const NE: u16 = 32;

pub const GT: u16 = 33;

pub const GE: u16 = 34;

pub const LT: u16 = 35;

pub const LE: u16 = 36;

pub const AND: u16 = 37;

pub const OR: u16 = 38;

pub const XOR: u16 = 39;

pub const NOT: u16 = 40;

pub const BITSHIFT: u16 = 41;

// Strings and messages.
pub const STRING: u16 = 42;

pub const SEARCH: u16 = 43;

pub const ANCHORSEARCH: u16 = 44;

pub const CVS: u16 = 45;

pub const CVRS: u16 = 46;

pub const CVN: u16 = 47;

pub const CVI: u16 = 48;

pub const CVR: u16 = 49;

pub const PRINT: u16 = 50;

pub const EQUALS_SIGN: u16 = 51;

pub const TWO_EQUALS_SIGNS: u16 = 52;

pub const STACK: u16 = 53;

pub const PSTACK: u16 = 54;

// Dictionaries.
pub const DICT: u16 = 55;

pub const RIGHT_ANGLES: u16 = 56;

pub const LENGTH: u16 = 57;

pub const MAXLENGTH: u16 = 58;

pub const GET: u16 = 59;

pub const PUT: u16 = 60;

pub const COPY: u16 = 61;

pub const BEGIN: u16 = 62;

pub const END: u16 = 63;

pub const DEF: u16 = 64;

pub const LOAD: u16 = 65;

pub const STORE: u16 = 66;

pub const KNOWN: u16 = 67;

pub const WHERE: u16 = 68;

pub const UNDEF: u16 = 69;

pub const CURRENTDICT: u16 = 70;

pub const COUNTDICTSTACK: u16 = 71;

pub const CLEARDICTSTACK: u16 = 72;

pub const DICTSTACK: u16 = 73;

// Arrays, types and attributes.
pub const ARRAY: u16 = 74;

pub const RIGHT_BRACKET: u16 = 75;

pub const PACKEDARRAY: u16 = 76;

pub const SETPACKING: u16 = 77;

pub const CURRENTPACKING: u16 = 78;

pub const GETINTERVAL: u16 = 79;

pub const PUTINTERVAL: u16 = 80;

pub const ALOAD: u16 = 81;

pub const ASTORE: u16 = 82;

pub const TYPE: u16 = 83;

pub const CVLIT: u16 = 84;

pub const CVX: u16 = 85;

pub const XCHECK: u16 = 86;

pub const EXECUTEONLY: u16 = 87;

pub const READONLY: u16 = 88;

pub const NOACCESS: u16 = 89;

pub const RCHECK: u16 = 90;

pub const WCHECK: u16 = 91;

pub const GCHECK: u16 = 92;

pub const BIND: u16 = 93;

// Control.
pub const EXEC: u16 = 94;

pub const IF: u16 = 95;

pub const IFELSE: u16 = 96;

pub const FOR: u16 = 97;

pub const REPEAT: u16 = 98;

pub const LOOP: u16 = 99;

pub const FORALL: u16 = 100;

pub const EXIT: u16 = 101;

pub const STOP: u16 = 102;

pub const QUIT: u16 = 103;

pub const STOPPED: u16 = 104;

// Files.
pub const CURRENTFILE: u16 = 105;

pub const STATUS: u16 = 106;

pub const BYTESAVAILABLE: u16 = 107;

pub const READ: u16 = 108;

pub const READSTRING: u16 = 109;

pub const READHEXSTRING: u16 = 110;

pub const READLINE: u16 = 111;

pub const TOKEN: u16 = 112;

pub const CLOSEFILE: u16 = 113;

pub const FLUSHFILE: u16 = 114;

pub const FLUSH: u16 = 115;

// Memory and time.
pub const SAVE: u16 = 116;

pub const RESTORE: u16 = 117;

pub const SETGLOBAL: u16 = 118;

pub const CURRENTGLOBAL: u16 = 119;

pub const VMSTATUS: u16 = 120;

pub const VMRECLAIM: u16 = 121;

pub const REALTIME: u16 = 122;

pub const USERTIME: u16 = 123;

// Matrices.
pub const MATRIX: u16 = 124;

pub const IDENTMATRIX: u16 = 125;

pub const DEFAULTMATRIX: u16 = 126;

pub const CURRENTMATRIX: u16 = 127;

pub const SETMATRIX: u16 = 128;

pub const INITMATRIX: u16 = 129;

pub const TRANSLATE: u16 = 130;

pub const SCALE: u16 = 131;

pub const ROTATE: u16 = 132;

pub const CONCAT: u16 = 133;

pub const CONCATMATRIX: u16 = 134;

pub const INVERTMATRIX: u16 = 135;

pub const TRANSFORM: u16 = 136;

pub const DTRANSFORM: u16 = 137;

pub const ITRANSFORM: u16 = 138;

pub const IDTRANSFORM: u16 = 139;

// The graphics state and lines.
pub const GSAVE: u16 = 140;

pub const GRESTORE: u16 = 141;

pub const GRESTOREALL: u16 = 142;

pub const INITGRAPHICS: u16 = 143;

pub const SETLINEWIDTH: u16 = 144;

pub const SETLINECAP: u16 = 145;

pub const SETLINEJOIN: u16 = 146;

pub const SETMITERLIMIT: u16 = 147;

pub const SETFLAT: u16 = 148;

pub const SETSTROKEADJUST: u16 = 149;

pub const CURRENTLINEWIDTH: u16 = 150;

pub const CURRENTLINECAP: u16 = 151;

pub const CURRENTLINEJOIN: u16 = 152;

pub const CURRENTMITERLIMIT: u16 = 153;

pub const CURRENTFLAT: u16 = 154;

pub const CURRENTSTROKEADJUST: u16 = 155;

pub const SETDASH: u16 = 156;

pub const CURRENTDASH: u16 = 157;

// Colours and screens.
pub const SETGRAY: u16 = 158;

pub const SETRGBCOLOR: u16 = 159;

pub const SETCMYKCOLOR: u16 = 160;

pub const CURRENTGRAY: u16 = 161;

pub const CURRENTRGBCOLOR: u16 = 162;

pub const CURRENTCMYKCOLOR: u16 = 163;

pub const SETCOLORSPACE: u16 = 164;

pub const CURRENTCOLORSPACE: u16 = 165;

pub const SETCOLOR: u16 = 166;

pub const CURRENTCOLOR: u16 = 167;

pub const SETSCREEN: u16 = 168;

pub const CURRENTSCREEN: u16 = 169;

pub const SETTRANSFER: u16 = 170;

pub const CURRENTTRANSFER: u16 = 171;

pub const SETHALFTONE: u16 = 172;

pub const CURRENTHALFTONE: u16 = 173;

// Paths and clips.
pub const NEWPATH: u16 = 174;

pub const CURRENTPOINT: u16 = 175;

pub const MOVETO: u16 = 176;

pub const RMOVETO: u16 = 177;

pub const LINETO: u16 = 178;

pub const RLINETO: u16 = 179;

pub const CURVETO: u16 = 180;

pub const RCURVETO: u16 = 181;

pub const ARC: u16 = 182;

pub const ARCN: u16 = 183;

pub const CLOSEPATH: u16 = 184;

pub const FLATTENPATH: u16 = 185;

pub const CLIPPATH: u16 = 186;

pub const PATHBBOX: u16 = 187;

pub const PATHFORALL: u16 = 188;

pub const INITCLIP: u16 = 189;

pub const CLIP: u16 = 190;

pub const EOCLIP: u16 = 191;

pub const RECTCLIP: u16 = 192;

// Painting and images.
pub const FILL: u16 = 193;

pub const EOFILL: u16 = 194;

pub const STROKE: u16 = 195;

pub const RECTFILL: u16 = 196;

pub const RECTSTROKE: u16 = 197;

pub const ERASEPAGE: u16 = 198;

pub const SHOWPAGE: u16 = 199;

pub const COPYPAGE: u16 = 200;

pub const IMAGE: u16 = 201;

pub const IMAGEMASK: u16 = 202;

// Fonts.
pub const DEFINEFONT: u16 = 203;

pub const UNDEFINEFONT: u16 = 204;

pub const FINDFONT: u16 = 205;

pub const SCALEFONT: u16 = 206;

pub const MAKEFONT: u16 = 207;

pub const SETFONT: u16 = 208;

pub const CURRENTFONT: u16 = 209;

pub const SELECTFONT: u16 = 210;

pub const SHOW: u16 = 211;

pub const ASHOW: u16 = 212;

pub const WIDTHSHOW: u16 = 213;

pub const AWIDTHSHOW: u16 = 214;

pub const KSHOW: u16 = 215;

pub const STRINGWIDTH: u16 = 216;

pub const SETCHARWIDTH: u16 = 217;

pub const SETCACHEDEVICE: u16 = 218;

/// The place of the first default entry.
pub const FIRST_DEFAULT_ENTRY: u16 = 219;

/// How many operators there are, the default entries among them.
pub const OPERATOR_COUNT: u16 = 239;

/// Each place is that of its line in the table of the operators.
pub fn places_are_in_order()
    ensures { map (λ line. line.0) operators ≡ range_with_len 0 FIRST_DEFAULT_ENTRY }
{}
