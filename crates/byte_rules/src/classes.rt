// All 256 bytes by four classes, on one sheet. The tests of lib.rt read it. It is proved once to say what the rules of specs/Classes.antt say.
ghost use Rattle.std.specs.Prelude.{◌≡◌, ◌*◌, ◌/◌};
ghost use Rattle.byte_rules.specs.Masks.{mask_of};

// A bit for each class: a byte may be in several.
pub(crate) const BLANK: u8 = 1;

pub(crate) const CLOSER: u8 = 2;

pub(crate) const ITALIC_OPENER: u8 = 4;

pub(crate) const ALPHANUMERIC: u8 = 8;

// Their initials, for the sheet.
const B: u8 = BLANK;

const C: u8 = CLOSER;

const I: u8 = ITALIC_OPENER;

const A: u8 = ALPHANUMERIC;

// Of each byte the sum of its classes' bits: a row for the high digit, a column for the low one, and above the entry the byte's sign.
#[rattlefmt::skip]
static MASKS: [u8; 256] = [
    //        0    1    2    3    4    5    6    7    8    9    A    B    C    D    E    F
    //                                                   tab   LF        FF   CR
    /* 0 */   0,   0,   0,   0,   0,   0,   0,   0,   0,   B,   B,   0,   B,   B,   0,   0,
    /* 1 */   0,   0,   0,   0,   0,   0,   0,   0,   0,   0,   0,   0,   0,   0,   0,   0,
    //       SP    !    "    #    $    %    &    '    (    )    *    +    ,    -    .    /
    /* 2 */   B,   C, C+I,   0,   0,   0,   0, C+I,   I,   C,   0,   0,   C,   C,   C,   0,
    //        0    1    2    3    4    5    6    7    8    9    :    ;    <    =    >    ?
    /* 3 */   A,   A,   A,   A,   A,   A,   A,   A,   A,   A,   C,   C,   0,   0,   0,   C,
    //        @    A    B    C    D    E    F    G    H    I    J    K    L    M    N    O
    /* 4 */   0,   A,   A,   A,   A,   A,   A,   A,   A,   A,   A,   A,   A,   A,   A,   A,
    //        P    Q    R    S    T    U    V    W    X    Y    Z    [    \    ]    ^    _
    /* 5 */   A,   A,   A,   A,   A,   A,   A,   A,   A,   A,   A,   I,   0,   C,   0,   C,
    //        `    a    b    c    d    e    f    g    h    i    j    k    l    m    n    o
    /* 6 */   0,   A,   A,   A,   A,   A,   A,   A,   A,   A,   A,   A,   A,   A,   A,   A,
    //        p    q    r    s    t    u    v    w    x    y    z    {    |    }    ~
    /* 7 */   A,   A,   A,   A,   A,   A,   A,   A,   A,   A,   A,   0,   0,   0,   0,   0,
    /* 8 */   0,   0,   0,   0,   0,   0,   0,   0,   0,   0,   0,   0,   0,   0,   0,   0,
    /* 9 */   0,   0,   0,   0,   0,   0,   0,   0,   0,   0,   0,   0,   0,   0,   0,   0,
    /* A */   0,   0,   0,   0,   0,   0,   0,   0,   0,   0,   0,   0,   0,   0,   0,   0,
    /* B */   0,   0,   0,   0,   0,   0,   0,   0,   0,   0,   0,   0,   0,   0,   0,   0,
    /* C */   0,   0,   0,   0,   0,   0,   0,   0,   0,   0,   0,   0,   0,   0,   0,   0,
    /* D */   0,   0,   0,   0,   0,   0,   0,   0,   0,   0,   0,   0,   0,   0,   0,   0,
    /* E */   0,   0,   0,   0,   0,   0,   0,   0,   0,   0,   0,   0,   0,   0,   0,   0,
    /* F */   0,   0,   0,   0,   0,   0,   0,   0,   0,   0,   0,   0,   0,   0,   0,   0,
];

// The classes that a byte is in.
pub(crate) fn mask(c: u8) -> u8
    ensures { result ≡ mask_of c }
{
    MASKS[usize::from(c)]
}
