//! The limits of levels (ITU-T H.264, clause A.3 and table A-1), for progressive streams of the High profile, as definitions, and the
//! table and the type that they speak of.
#![tactic(auto)]

ghost use Rattle.std.specs.Prelude.{◌≡◌, ℕ, None, false, IfSome};
ghost use Rattle.spec_levels.specs.Levels.{fits, least_level, IsLeast};

/// Of each level its level_idc, and MaxMBPS, MaxFS, MaxDpbMbs, MaxBR and MaxCPB (table A-1): macroblocks a second, macroblocks of a
/// picture, macroblocks of all held pictures, bits a second and bits of the buffer. The last two count 1,500 bits each (table A-2).
pub const LEVELS: [(u8, [u32; 5]); 15] = [
    (10, [1485, 99, 396, 64, 175]),
    (11, [3000, 396, 900, 192, 500]),
    (12, [6000, 396, 2376, 384, 1000]),
    (13, [11880, 396, 2376, 768, 2000]),
    (20, [11880, 396, 2376, 2000, 2000]),
    (21, [19800, 792, 4752, 4000, 4000]),
    (22, [20250, 1620, 8100, 4000, 4000]),
    (30, [40500, 1620, 8100, 10000, 10000]),
    (31, [108000, 3600, 18000, 14000, 14000]),
    (32, [216000, 5120, 20480, 20000, 20000]),
    (40, [245760, 8192, 32768, 20000, 25000]),
    (41, [245760, 8192, 32768, 50000, 62500]),
    (42, [522240, 8704, 34816, 50000, 62500]),
    (50, [589824, 22080, 110400, 135000, 135000]),
    (51, [983040, 36864, 184320, 240000, 240000]),
];

/// What a stream needs of a level.
#[derive(Clone, Copy, Debug, PartialEq, Eq)]
pub struct Need {
    /// Macroblocks in a row of a picture.
    pub width_mbs: u32,
    /// Rows of macroblocks.
    pub height_mbs: u32,
    /// Pictures that come in `den` seconds.
    pub num: u32,
    /// Seconds in which `num` pictures come.
    pub den: u32,
    /// Bits a second.
    pub rate: u64,
    /// Bits of the coded picture buffer.
    pub cpb: u64,
    /// Pictures that are held for reference.
    pub refs: u32,
}

/// The first level of the table that a stream fits is the least that it fits; where there is none, it fits no level.
pub fn first_levels_are_least()
    ensures least { (need : Need) → IfSome (least_level need) (λ level. IsLeast level need) }
    ensures none { (need : Need) → least_level need ≡ None → (level : ℕ) → fits level need ≡ false }
{}
