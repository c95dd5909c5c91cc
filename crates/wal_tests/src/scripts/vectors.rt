//! What power leaves after each call of some scripts, as an independent model tells it.
//!
//! A line has a script, how many calls of the disk are done, the elder or `-` for the log itself,
//! what is kept of its bytes that are not synced, and the bodies that are read then, each with a
//! comma behind it.
//!
//! A script's steps are `cX` (commits X), `aX` (adds X), `s` (syncs), `b` (begins the next file), `nX`
//! (adds X to it) and `p` (publishes it). Two calls of the disk come before it: those of the start.
//! A byte is kept (`+`), lost (`0`), or missing at the end.

pub const SCRIPTS: &str = "\
cone ctwo b nthree nfour p cfive|2|-||
cone ctwo b nthree nfour p cfive|2|-|++++++++|
cone ctwo b nthree nfour p cfive|2|-|+++++++++++++++++++|
cone ctwo b nthree nfour p cfive|2|-|+++++++++++++++++++++++++++|
cone ctwo b nthree nfour p cfive|2|-|++++++++++++++++++++++++++++|one,
cone ctwo b nthree nfour p cfive|2|-|+++++++++++++++++++++++++++0|
cone ctwo b nthree nfour p cfive|2|-|+++++++++++++++++++0++++++++|
cone ctwo b nthree nfour p cfive|2|-|++++++++++++++00000000000000|
cone ctwo b nthree nfour p cfive|2|-|++++++++0+++++++++++++++++++|
cone ctwo b nthree nfour p cfive|2|-|+0+0+0+0+0+0+0+0+0+0+0+0+0+0|
cone ctwo b nthree nfour p cfive|2|-|0+++++++++++++++++++++++++++|
cone ctwo b nthree nfour p cfive|2|-|00000000000000++++++++++++++|
cone ctwo b nthree nfour p cfive|2|-|0000000000000000000000000000|
cone ctwo b nthree nfour p cfive|3|-||
cone ctwo b nthree nfour p cfive|3|-|++++++++|
cone ctwo b nthree nfour p cfive|3|-|+++++++++++++++++++|
cone ctwo b nthree nfour p cfive|3|-|+++++++++++++++++++++++++++|
cone ctwo b nthree nfour p cfive|3|-|++++++++++++++++++++++++++++|one,
cone ctwo b nthree nfour p cfive|3|-|+++++++++++++++++++++++++++0|
cone ctwo b nthree nfour p cfive|3|-|+++++++++++++++++++0++++++++|
cone ctwo b nthree nfour p cfive|3|-|++++++++++++++00000000000000|
cone ctwo b nthree nfour p cfive|3|-|++++++++0+++++++++++++++++++|
cone ctwo b nthree nfour p cfive|3|-|+0+0+0+0+0+0+0+0+0+0+0+0+0+0|
cone ctwo b nthree nfour p cfive|3|-|0+++++++++++++++++++++++++++|
cone ctwo b nthree nfour p cfive|3|-|00000000000000++++++++++++++|
cone ctwo b nthree nfour p cfive|3|-|0000000000000000000000000000|
cone ctwo b nthree nfour p cfive|4|-||one,
cone ctwo b nthree nfour p cfive|4|-|++++++++|one,
cone ctwo b nthree nfour p cfive|4|-|+++++++++++++++++++|one,
cone ctwo b nthree nfour p cfive|4|-|++++++++++++++++++++++++++++|one,
cone ctwo b nthree nfour p cfive|4|-|+++++++++++++++++++++++++++++|one,two,
cone ctwo b nthree nfour p cfive|4|-|++++++++++++++++++++++++++++0|one,
cone ctwo b nthree nfour p cfive|4|-|+++++++++++++++++++0+++++++++|one,
cone ctwo b nthree nfour p cfive|4|-|++++++++++++++000000000000000|one,
cone ctwo b nthree nfour p cfive|4|-|++++++++0++++++++++++++++++++|one,
cone ctwo b nthree nfour p cfive|4|-|+0+0+0+0+0+0+0+0+0+0+0+0+0+0+|one,
cone ctwo b nthree nfour p cfive|4|-|0++++++++++++++++++++++++++++|one,
cone ctwo b nthree nfour p cfive|4|-|00000000000000+++++++++++++++|one,
cone ctwo b nthree nfour p cfive|4|-|00000000000000000000000000000|one,
cone ctwo b nthree nfour p cfive|5|-||one,
cone ctwo b nthree nfour p cfive|5|-|++++++++|one,
cone ctwo b nthree nfour p cfive|5|-|+++++++++++++++++++|one,
cone ctwo b nthree nfour p cfive|5|-|++++++++++++++++++++++++++++|one,
cone ctwo b nthree nfour p cfive|5|-|+++++++++++++++++++++++++++++|one,two,
cone ctwo b nthree nfour p cfive|5|-|++++++++++++++++++++++++++++0|one,
cone ctwo b nthree nfour p cfive|5|-|+++++++++++++++++++0+++++++++|one,
cone ctwo b nthree nfour p cfive|5|-|++++++++++++++000000000000000|one,
cone ctwo b nthree nfour p cfive|5|-|++++++++0++++++++++++++++++++|one,
cone ctwo b nthree nfour p cfive|5|-|+0+0+0+0+0+0+0+0+0+0+0+0+0+0+|one,
cone ctwo b nthree nfour p cfive|5|-|0++++++++++++++++++++++++++++|one,
cone ctwo b nthree nfour p cfive|5|-|00000000000000+++++++++++++++|one,
cone ctwo b nthree nfour p cfive|5|-|00000000000000000000000000000|one,
cone ctwo b nthree nfour p cfive|6|-||one,two,
cone ctwo b nthree nfour p cfive|7|-||one,two,
cone ctwo b nthree nfour p cfive|8|-||one,two,
cone ctwo b nthree nfour p cfive|9|-||one,two,
cone ctwo b nthree nfour p cfive|10|-||three,four,
cone ctwo b nthree nfour p cfive|10|0||one,two,
cone ctwo b nthree nfour p cfive|11|-||three,four,
cone ctwo b nthree nfour p cfive|11|0||one,two,
cone ctwo b nthree nfour p cfive|12|-||three,four,
cone ctwo b nthree nfour p cfive|12|-|++++++++|three,four,
cone ctwo b nthree nfour p cfive|12|-|+++++++++++++++++++|three,four,
cone ctwo b nthree nfour p cfive|12|-|+++++++++++++++++++++++++++|three,four,
cone ctwo b nthree nfour p cfive|12|-|++++++++++++++++++++++++++++|three,four,five,
cone ctwo b nthree nfour p cfive|12|-|+++++++++++++++++++++++++++0|three,four,
cone ctwo b nthree nfour p cfive|12|-|+++++++++++++++++++0++++++++|three,four,
cone ctwo b nthree nfour p cfive|12|-|++++++++++++++00000000000000|three,four,
cone ctwo b nthree nfour p cfive|12|-|++++++++0+++++++++++++++++++|three,four,
cone ctwo b nthree nfour p cfive|12|-|+0+0+0+0+0+0+0+0+0+0+0+0+0+0|three,four,
cone ctwo b nthree nfour p cfive|12|-|0+++++++++++++++++++++++++++|three,four,
cone ctwo b nthree nfour p cfive|12|-|00000000000000++++++++++++++|three,four,
cone ctwo b nthree nfour p cfive|12|-|0000000000000000000000000000|three,four,
cone ctwo b nthree nfour p cfive|13|-||three,four,
cone ctwo b nthree nfour p cfive|13|-|++++++++|three,four,
cone ctwo b nthree nfour p cfive|13|-|+++++++++++++++++++|three,four,
cone ctwo b nthree nfour p cfive|13|-|+++++++++++++++++++++++++++|three,four,
cone ctwo b nthree nfour p cfive|13|-|++++++++++++++++++++++++++++|three,four,five,
cone ctwo b nthree nfour p cfive|13|-|+++++++++++++++++++++++++++0|three,four,
cone ctwo b nthree nfour p cfive|13|-|+++++++++++++++++++0++++++++|three,four,
cone ctwo b nthree nfour p cfive|13|-|++++++++++++++00000000000000|three,four,
cone ctwo b nthree nfour p cfive|13|-|++++++++0+++++++++++++++++++|three,four,
cone ctwo b nthree nfour p cfive|13|-|+0+0+0+0+0+0+0+0+0+0+0+0+0+0|three,four,
cone ctwo b nthree nfour p cfive|13|-|0+++++++++++++++++++++++++++|three,four,
cone ctwo b nthree nfour p cfive|13|-|00000000000000++++++++++++++|three,four,
cone ctwo b nthree nfour p cfive|13|-|0000000000000000000000000000|three,four,
cone ctwo b nthree nfour p cfive|14|-||three,four,five,
cone ctwo b nthree nfour p cfive|15|-||three,four,five,
aone atwo s athree cfour|2|-||
aone atwo s athree cfour|2|-|++++++++|
aone atwo s athree cfour|2|-|+++++++++++++++++++|
aone atwo s athree cfour|2|-|+++++++++++++++++++++++++++|
aone atwo s athree cfour|2|-|++++++++++++++++++++++++++++|one,
aone atwo s athree cfour|2|-|+++++++++++++++++++++++++++0|
aone atwo s athree cfour|2|-|+++++++++++++++++++0++++++++|
aone atwo s athree cfour|2|-|++++++++++++++00000000000000|
aone atwo s athree cfour|2|-|++++++++0+++++++++++++++++++|
aone atwo s athree cfour|2|-|+0+0+0+0+0+0+0+0+0+0+0+0+0+0|
aone atwo s athree cfour|2|-|0+++++++++++++++++++++++++++|
aone atwo s athree cfour|2|-|00000000000000++++++++++++++|
aone atwo s athree cfour|2|-|0000000000000000000000000000|
aone atwo s athree cfour|3|-||
aone atwo s athree cfour|3|-|++++++++|
aone atwo s athree cfour|3|-|+++++++++++++++++++|
aone atwo s athree cfour|3|-|++++++++++++++++++++++++++++++|one,
aone atwo s athree cfour|3|-|+++++++++++++++++++++++++++++++++++++++++|one,
aone atwo s athree cfour|3|-|++++++++++++++++++++++++++++++++++++++++++++++++++++|one,
aone atwo s athree cfour|3|-|+++++++++++++++++++++++++++++++++++++++++++++++++++++++|one,
aone atwo s athree cfour|3|-|++++++++++++++++++++++++++++++++++++++++++++++++++++++++|one,two,
aone atwo s athree cfour|3|-|+++++++++++++++++++++++++++++++++++++++++++++++++++++++0|one,
aone atwo s athree cfour|3|-|++++++++++++++++++++++++++++++++++++++++++++++++++++0+++|one,
aone atwo s athree cfour|3|-|+++++++++++++++++++++++++++++++++++++++++0++++++++++++++|one,
aone atwo s athree cfour|3|-|++++++++++++++++++++++++++++++0+++++++++++++++++++++++++|one,
aone atwo s athree cfour|3|-|++++++++++++++++++++++++++++0000000000000000000000000000|one,
aone atwo s athree cfour|3|-|+++++++++++++++++++0++++++++++++++++++++++++++++++++++++|
aone atwo s athree cfour|3|-|++++++++0+++++++++++++++++++++++++++++++++++++++++++++++|
aone atwo s athree cfour|3|-|+0+0+0+0+0+0+0+0+0+0+0+0+0+0+0+0+0+0+0+0+0+0+0+0+0+0+0+0|
aone atwo s athree cfour|3|-|0+++++++++++++++++++++++++++++++++++++++++++++++++++++++|
aone atwo s athree cfour|3|-|0000000000000000000000000000++++++++++++++++++++++++++++|
aone atwo s athree cfour|3|-|00000000000000000000000000000000000000000000000000000000|
aone atwo s athree cfour|4|-||
aone atwo s athree cfour|4|-|++++++++|
aone atwo s athree cfour|4|-|+++++++++++++++++++|
aone atwo s athree cfour|4|-|++++++++++++++++++++++++++++++|one,
aone atwo s athree cfour|4|-|+++++++++++++++++++++++++++++++++++++++++|one,
aone atwo s athree cfour|4|-|++++++++++++++++++++++++++++++++++++++++++++++++++++|one,
aone atwo s athree cfour|4|-|+++++++++++++++++++++++++++++++++++++++++++++++++++++++|one,
aone atwo s athree cfour|4|-|++++++++++++++++++++++++++++++++++++++++++++++++++++++++|one,two,
aone atwo s athree cfour|4|-|+++++++++++++++++++++++++++++++++++++++++++++++++++++++0|one,
aone atwo s athree cfour|4|-|++++++++++++++++++++++++++++++++++++++++++++++++++++0+++|one,
aone atwo s athree cfour|4|-|+++++++++++++++++++++++++++++++++++++++++0++++++++++++++|one,
aone atwo s athree cfour|4|-|++++++++++++++++++++++++++++++0+++++++++++++++++++++++++|one,
aone atwo s athree cfour|4|-|++++++++++++++++++++++++++++0000000000000000000000000000|one,
aone atwo s athree cfour|4|-|+++++++++++++++++++0++++++++++++++++++++++++++++++++++++|
aone atwo s athree cfour|4|-|++++++++0+++++++++++++++++++++++++++++++++++++++++++++++|
aone atwo s athree cfour|4|-|+0+0+0+0+0+0+0+0+0+0+0+0+0+0+0+0+0+0+0+0+0+0+0+0+0+0+0+0|
aone atwo s athree cfour|4|-|0+++++++++++++++++++++++++++++++++++++++++++++++++++++++|
aone atwo s athree cfour|4|-|0000000000000000000000000000++++++++++++++++++++++++++++|
aone atwo s athree cfour|4|-|00000000000000000000000000000000000000000000000000000000|
aone atwo s athree cfour|5|-||one,two,
aone atwo s athree cfour|5|-|++++++++|one,two,
aone atwo s athree cfour|5|-|+++++++++++++++++++|one,two,
aone atwo s athree cfour|5|-|++++++++++++++++++++++++++++|one,two,
aone atwo s athree cfour|5|-|+++++++++++++++++++++++++++++|one,two,three,
aone atwo s athree cfour|5|-|++++++++++++++++++++++++++++0|one,two,
aone atwo s athree cfour|5|-|+++++++++++++++++++0+++++++++|one,two,
aone atwo s athree cfour|5|-|++++++++++++++000000000000000|one,two,
aone atwo s athree cfour|5|-|++++++++0++++++++++++++++++++|one,two,
aone atwo s athree cfour|5|-|+0+0+0+0+0+0+0+0+0+0+0+0+0+0+|one,two,
aone atwo s athree cfour|5|-|0++++++++++++++++++++++++++++|one,two,
aone atwo s athree cfour|5|-|00000000000000+++++++++++++++|one,two,
aone atwo s athree cfour|5|-|00000000000000000000000000000|one,two,
aone atwo s athree cfour|6|-||one,two,
aone atwo s athree cfour|6|-|++++++++|one,two,
aone atwo s athree cfour|6|-|+++++++++++++++++++|one,two,
aone atwo s athree cfour|6|-|++++++++++++++++++++++++++++++|one,two,three,
aone atwo s athree cfour|6|-|+++++++++++++++++++++++++++++++++++++++++|one,two,three,
aone atwo s athree cfour|6|-|++++++++++++++++++++++++++++++++++++++++++++++++++++|one,two,three,
aone atwo s athree cfour|6|-|++++++++++++++++++++++++++++++++++++++++++++++++++++++++|one,two,three,
aone atwo s athree cfour|6|-|+++++++++++++++++++++++++++++++++++++++++++++++++++++++++|one,two,three,four,
aone atwo s athree cfour|6|-|++++++++++++++++++++++++++++++++++++++++++++++++++++++++0|one,two,three,
aone atwo s athree cfour|6|-|++++++++++++++++++++++++++++++++++++++++++++++++++++0++++|one,two,three,
aone atwo s athree cfour|6|-|+++++++++++++++++++++++++++++++++++++++++0+++++++++++++++|one,two,three,
aone atwo s athree cfour|6|-|++++++++++++++++++++++++++++++0++++++++++++++++++++++++++|one,two,three,
aone atwo s athree cfour|6|-|++++++++++++++++++++++++++++00000000000000000000000000000|one,two,
aone atwo s athree cfour|6|-|+++++++++++++++++++0+++++++++++++++++++++++++++++++++++++|one,two,
aone atwo s athree cfour|6|-|++++++++0++++++++++++++++++++++++++++++++++++++++++++++++|one,two,
aone atwo s athree cfour|6|-|+0+0+0+0+0+0+0+0+0+0+0+0+0+0+0+0+0+0+0+0+0+0+0+0+0+0+0+0+|one,two,
aone atwo s athree cfour|6|-|0++++++++++++++++++++++++++++++++++++++++++++++++++++++++|one,two,
aone atwo s athree cfour|6|-|0000000000000000000000000000+++++++++++++++++++++++++++++|one,two,
aone atwo s athree cfour|6|-|000000000000000000000000000000000000000000000000000000000|one,two,
aone atwo s athree cfour|7|-||one,two,
aone atwo s athree cfour|7|-|++++++++|one,two,
aone atwo s athree cfour|7|-|+++++++++++++++++++|one,two,
aone atwo s athree cfour|7|-|++++++++++++++++++++++++++++++|one,two,three,
aone atwo s athree cfour|7|-|+++++++++++++++++++++++++++++++++++++++++|one,two,three,
aone atwo s athree cfour|7|-|++++++++++++++++++++++++++++++++++++++++++++++++++++|one,two,three,
aone atwo s athree cfour|7|-|++++++++++++++++++++++++++++++++++++++++++++++++++++++++|one,two,three,
aone atwo s athree cfour|7|-|+++++++++++++++++++++++++++++++++++++++++++++++++++++++++|one,two,three,four,
aone atwo s athree cfour|7|-|++++++++++++++++++++++++++++++++++++++++++++++++++++++++0|one,two,three,
aone atwo s athree cfour|7|-|++++++++++++++++++++++++++++++++++++++++++++++++++++0++++|one,two,three,
aone atwo s athree cfour|7|-|+++++++++++++++++++++++++++++++++++++++++0+++++++++++++++|one,two,three,
aone atwo s athree cfour|7|-|++++++++++++++++++++++++++++++0++++++++++++++++++++++++++|one,two,three,
aone atwo s athree cfour|7|-|++++++++++++++++++++++++++++00000000000000000000000000000|one,two,
aone atwo s athree cfour|7|-|+++++++++++++++++++0+++++++++++++++++++++++++++++++++++++|one,two,
aone atwo s athree cfour|7|-|++++++++0++++++++++++++++++++++++++++++++++++++++++++++++|one,two,
aone atwo s athree cfour|7|-|+0+0+0+0+0+0+0+0+0+0+0+0+0+0+0+0+0+0+0+0+0+0+0+0+0+0+0+0+|one,two,
aone atwo s athree cfour|7|-|0++++++++++++++++++++++++++++++++++++++++++++++++++++++++|one,two,
aone atwo s athree cfour|7|-|0000000000000000000000000000+++++++++++++++++++++++++++++|one,two,
aone atwo s athree cfour|7|-|000000000000000000000000000000000000000000000000000000000|one,two,
aone atwo s athree cfour|8|-||one,two,three,four,
aone atwo s athree cfour|9|-||one,two,three,four,
aone atwo s athree cfour|10|-||one,two,three,four,
cone b none ctwo ntwo p athree|2|-||
cone b none ctwo ntwo p athree|2|-|++++++++|
cone b none ctwo ntwo p athree|2|-|+++++++++++++++++++|
cone b none ctwo ntwo p athree|2|-|+++++++++++++++++++++++++++|
cone b none ctwo ntwo p athree|2|-|++++++++++++++++++++++++++++|one,
cone b none ctwo ntwo p athree|2|-|+++++++++++++++++++++++++++0|
cone b none ctwo ntwo p athree|2|-|+++++++++++++++++++0++++++++|
cone b none ctwo ntwo p athree|2|-|++++++++++++++00000000000000|
cone b none ctwo ntwo p athree|2|-|++++++++0+++++++++++++++++++|
cone b none ctwo ntwo p athree|2|-|+0+0+0+0+0+0+0+0+0+0+0+0+0+0|
cone b none ctwo ntwo p athree|2|-|0+++++++++++++++++++++++++++|
cone b none ctwo ntwo p athree|2|-|00000000000000++++++++++++++|
cone b none ctwo ntwo p athree|2|-|0000000000000000000000000000|
cone b none ctwo ntwo p athree|3|-||
cone b none ctwo ntwo p athree|3|-|++++++++|
cone b none ctwo ntwo p athree|3|-|+++++++++++++++++++|
cone b none ctwo ntwo p athree|3|-|+++++++++++++++++++++++++++|
cone b none ctwo ntwo p athree|3|-|++++++++++++++++++++++++++++|one,
cone b none ctwo ntwo p athree|3|-|+++++++++++++++++++++++++++0|
cone b none ctwo ntwo p athree|3|-|+++++++++++++++++++0++++++++|
cone b none ctwo ntwo p athree|3|-|++++++++++++++00000000000000|
cone b none ctwo ntwo p athree|3|-|++++++++0+++++++++++++++++++|
cone b none ctwo ntwo p athree|3|-|+0+0+0+0+0+0+0+0+0+0+0+0+0+0|
cone b none ctwo ntwo p athree|3|-|0+++++++++++++++++++++++++++|
cone b none ctwo ntwo p athree|3|-|00000000000000++++++++++++++|
cone b none ctwo ntwo p athree|3|-|0000000000000000000000000000|
cone b none ctwo ntwo p athree|4|-||one,
cone b none ctwo ntwo p athree|5|-||one,
cone b none ctwo ntwo p athree|6|-||one,
cone b none ctwo ntwo p athree|6|-|++++++++|one,
cone b none ctwo ntwo p athree|6|-|+++++++++++++++++++|one,
cone b none ctwo ntwo p athree|6|-|++++++++++++++++++++++++++++|one,
cone b none ctwo ntwo p athree|6|-|+++++++++++++++++++++++++++++|one,two,
cone b none ctwo ntwo p athree|6|-|++++++++++++++++++++++++++++0|one,
cone b none ctwo ntwo p athree|6|-|+++++++++++++++++++0+++++++++|one,
cone b none ctwo ntwo p athree|6|-|++++++++++++++000000000000000|one,
cone b none ctwo ntwo p athree|6|-|++++++++0++++++++++++++++++++|one,
cone b none ctwo ntwo p athree|6|-|+0+0+0+0+0+0+0+0+0+0+0+0+0+0+|one,
cone b none ctwo ntwo p athree|6|-|0++++++++++++++++++++++++++++|one,
cone b none ctwo ntwo p athree|6|-|00000000000000+++++++++++++++|one,
cone b none ctwo ntwo p athree|6|-|00000000000000000000000000000|one,
cone b none ctwo ntwo p athree|7|-||one,
cone b none ctwo ntwo p athree|7|-|++++++++|one,
cone b none ctwo ntwo p athree|7|-|+++++++++++++++++++|one,
cone b none ctwo ntwo p athree|7|-|++++++++++++++++++++++++++++|one,
cone b none ctwo ntwo p athree|7|-|+++++++++++++++++++++++++++++|one,two,
cone b none ctwo ntwo p athree|7|-|++++++++++++++++++++++++++++0|one,
cone b none ctwo ntwo p athree|7|-|+++++++++++++++++++0+++++++++|one,
cone b none ctwo ntwo p athree|7|-|++++++++++++++000000000000000|one,
cone b none ctwo ntwo p athree|7|-|++++++++0++++++++++++++++++++|one,
cone b none ctwo ntwo p athree|7|-|+0+0+0+0+0+0+0+0+0+0+0+0+0+0+|one,
cone b none ctwo ntwo p athree|7|-|0++++++++++++++++++++++++++++|one,
cone b none ctwo ntwo p athree|7|-|00000000000000+++++++++++++++|one,
cone b none ctwo ntwo p athree|7|-|00000000000000000000000000000|one,
cone b none ctwo ntwo p athree|8|-||one,two,
cone b none ctwo ntwo p athree|9|-||one,two,
cone b none ctwo ntwo p athree|10|-||one,two,
cone b none ctwo ntwo p athree|10|0||one,two,
cone b none ctwo ntwo p athree|11|-||one,two,
cone b none ctwo ntwo p athree|11|0||one,two,
cone b none ctwo ntwo p athree|12|-||one,two,
cone b none ctwo ntwo p athree|12|-|++++++++|one,two,
cone b none ctwo ntwo p athree|12|-|+++++++++++++++++++|one,two,
cone b none ctwo ntwo p athree|12|-|++++++++++++++++++++++++++++|one,two,
cone b none ctwo ntwo p athree|12|-|+++++++++++++++++++++++++++++|one,two,three,
cone b none ctwo ntwo p athree|12|-|++++++++++++++++++++++++++++0|one,two,
cone b none ctwo ntwo p athree|12|-|+++++++++++++++++++0+++++++++|one,two,
cone b none ctwo ntwo p athree|12|-|++++++++++++++000000000000000|one,two,
cone b none ctwo ntwo p athree|12|-|++++++++0++++++++++++++++++++|one,two,
cone b none ctwo ntwo p athree|12|-|+0+0+0+0+0+0+0+0+0+0+0+0+0+0+|one,two,
cone b none ctwo ntwo p athree|12|-|0++++++++++++++++++++++++++++|one,two,
cone b none ctwo ntwo p athree|12|-|00000000000000+++++++++++++++|one,two,
cone b none ctwo ntwo p athree|12|-|00000000000000000000000000000|one,two,
cone b none ctwo ntwo p athree|13|-||one,two,
cone b none ctwo ntwo p athree|13|-|++++++++|one,two,
cone b none ctwo ntwo p athree|13|-|+++++++++++++++++++|one,two,
cone b none ctwo ntwo p athree|13|-|++++++++++++++++++++++++++++|one,two,
cone b none ctwo ntwo p athree|13|-|+++++++++++++++++++++++++++++|one,two,three,
cone b none ctwo ntwo p athree|13|-|++++++++++++++++++++++++++++0|one,two,
cone b none ctwo ntwo p athree|13|-|+++++++++++++++++++0+++++++++|one,two,
cone b none ctwo ntwo p athree|13|-|++++++++++++++000000000000000|one,two,
cone b none ctwo ntwo p athree|13|-|++++++++0++++++++++++++++++++|one,two,
cone b none ctwo ntwo p athree|13|-|+0+0+0+0+0+0+0+0+0+0+0+0+0+0+|one,two,
cone b none ctwo ntwo p athree|13|-|0++++++++++++++++++++++++++++|one,two,
cone b none ctwo ntwo p athree|13|-|00000000000000+++++++++++++++|one,two,
cone b none ctwo ntwo p athree|13|-|00000000000000000000000000000|one,two,
cone b none ctwo ntwo p athree|14|-||one,two,
cone b none ctwo ntwo p athree|14|-|++++++++|one,two,
cone b none ctwo ntwo p athree|14|-|+++++++++++++++++++|one,two,
cone b none ctwo ntwo p athree|14|-|++++++++++++++++++++++++++++|one,two,
cone b none ctwo ntwo p athree|14|-|+++++++++++++++++++++++++++++|one,two,three,
cone b none ctwo ntwo p athree|14|-|++++++++++++++++++++++++++++0|one,two,
cone b none ctwo ntwo p athree|14|-|+++++++++++++++++++0+++++++++|one,two,
cone b none ctwo ntwo p athree|14|-|++++++++++++++000000000000000|one,two,
cone b none ctwo ntwo p athree|14|-|++++++++0++++++++++++++++++++|one,two,
cone b none ctwo ntwo p athree|14|-|+0+0+0+0+0+0+0+0+0+0+0+0+0+0+|one,two,
cone b none ctwo ntwo p athree|14|-|0++++++++++++++++++++++++++++|one,two,
cone b none ctwo ntwo p athree|14|-|00000000000000+++++++++++++++|one,two,
cone b none ctwo ntwo p athree|14|-|00000000000000000000000000000|one,two,
c cx a|2|-||
c cx a|2|-|++++++++|
c cx a|2|-|+++++++++++++++++++|
c cx a|2|-|++++++++++++++++++++++++|
c cx a|2|-|+++++++++++++++++++++++++|,
c cx a|2|-|++++++++++++++++++++++++0|
c cx a|2|-|+++++++++++++++++++0+++++|
c cx a|2|-|++++++++++++0000000000000|
c cx a|2|-|++++++++0++++++++++++++++|
c cx a|2|-|+0+0+0+0+0+0+0+0+0+0+0+0+|
c cx a|2|-|0++++++++++++++++++++++++|
c cx a|2|-|000000000000+++++++++++++|
c cx a|2|-|0000000000000000000000000|
c cx a|3|-||
c cx a|3|-|++++++++|
c cx a|3|-|+++++++++++++++++++|
c cx a|3|-|++++++++++++++++++++++++|
c cx a|3|-|+++++++++++++++++++++++++|,
c cx a|3|-|++++++++++++++++++++++++0|
c cx a|3|-|+++++++++++++++++++0+++++|
c cx a|3|-|++++++++++++0000000000000|
c cx a|3|-|++++++++0++++++++++++++++|
c cx a|3|-|+0+0+0+0+0+0+0+0+0+0+0+0+|
c cx a|3|-|0++++++++++++++++++++++++|
c cx a|3|-|000000000000+++++++++++++|
c cx a|3|-|0000000000000000000000000|
c cx a|4|-||,
c cx a|4|-|++++++++|,
c cx a|4|-|+++++++++++++++++++|,
c cx a|4|-|++++++++++++++++++++++++|,
c cx a|4|-|+++++++++++++++++++++++++|,x,
c cx a|4|-|++++++++++++++++++++++++0|,
c cx a|4|-|+++++++++++++++++++0+++++|,
c cx a|4|-|++++++++++++0000000000000|,
c cx a|4|-|++++++++0++++++++++++++++|,
c cx a|4|-|+0+0+0+0+0+0+0+0+0+0+0+0+|,
c cx a|4|-|0++++++++++++++++++++++++|,
c cx a|4|-|000000000000+++++++++++++|,
c cx a|4|-|0000000000000000000000000|,
c cx a|5|-||,
c cx a|5|-|++++++++|,
c cx a|5|-|+++++++++++++++++++|,
c cx a|5|-|++++++++++++++++++++++++|,
c cx a|5|-|+++++++++++++++++++++++++|,x,
c cx a|5|-|++++++++++++++++++++++++0|,
c cx a|5|-|+++++++++++++++++++0+++++|,
c cx a|5|-|++++++++++++0000000000000|,
c cx a|5|-|++++++++0++++++++++++++++|,
c cx a|5|-|+0+0+0+0+0+0+0+0+0+0+0+0+|,
c cx a|5|-|0++++++++++++++++++++++++|,
c cx a|5|-|000000000000+++++++++++++|,
c cx a|5|-|0000000000000000000000000|,
c cx a|6|-||,x,
c cx a|6|-|++++++++|,x,
c cx a|6|-|+++++++++++++++++++|,x,
c cx a|6|-|+++++++++++++++++++++++|,x,
c cx a|6|-|++++++++++++++++++++++++|,x,,
c cx a|6|-|+++++++++++++++++++++++0|,x,
c cx a|6|-|+++++++++++++++++++0++++|,x,
c cx a|6|-|++++++++++++000000000000|,x,
c cx a|6|-|++++++++0+++++++++++++++|,x,
c cx a|6|-|+0+0+0+0+0+0+0+0+0+0+0+0|,x,
c cx a|6|-|0+++++++++++++++++++++++|,x,
c cx a|6|-|000000000000++++++++++++|,x,
c cx a|6|-|000000000000000000000000|,x,
c cx a|7|-||,x,
c cx a|7|-|++++++++|,x,
c cx a|7|-|+++++++++++++++++++|,x,
c cx a|7|-|+++++++++++++++++++++++|,x,
c cx a|7|-|++++++++++++++++++++++++|,x,,
c cx a|7|-|+++++++++++++++++++++++0|,x,
c cx a|7|-|+++++++++++++++++++0++++|,x,
c cx a|7|-|++++++++++++000000000000|,x,
c cx a|7|-|++++++++0+++++++++++++++|,x,
c cx a|7|-|+0+0+0+0+0+0+0+0+0+0+0+0|,x,
c cx a|7|-|0+++++++++++++++++++++++|,x,
c cx a|7|-|000000000000++++++++++++|,x,
c cx a|7|-|000000000000000000000000|,x,
c cx a|8|-||,x,
c cx a|8|-|++++++++|,x,
c cx a|8|-|+++++++++++++++++++|,x,
c cx a|8|-|+++++++++++++++++++++++|,x,
c cx a|8|-|++++++++++++++++++++++++|,x,,
c cx a|8|-|+++++++++++++++++++++++0|,x,
c cx a|8|-|+++++++++++++++++++0++++|,x,
c cx a|8|-|++++++++++++000000000000|,x,
c cx a|8|-|++++++++0+++++++++++++++|,x,
c cx a|8|-|+0+0+0+0+0+0+0+0+0+0+0+0|,x,
c cx a|8|-|0+++++++++++++++++++++++|,x,
c cx a|8|-|000000000000++++++++++++|,x,
c cx a|8|-|000000000000000000000000|,x,";
