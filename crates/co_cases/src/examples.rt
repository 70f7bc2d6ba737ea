//! Scripts with their reports, for tests that change one or the other. The crate worked_cases has all worked scripts.
/// One firing on one CPU.
pub const ONE_FIRING: &str = r"callout 1
funcs 1
timer 0 mpsafe
client 0
reset 0 =1.5 f0 a7
cpu 0
tick 1.5
";

/// Its report.
pub const ONE_FIRING_REPORT: &str = r"callout-report 1
callout 1
hz 1000
cpus 1
wheel 256
funcs 1
timer 0 mpsafe
func 0
client 0
reset 0 =u6442450944 f0 a7
cpu 0
tick u6442450944
histories
timer 0
0 c0/0 reset u6442450944 pr u0 f0 a7 cpu - = armed 0 #0 p0 off -
2 p0/0 pick #0 p0 u6442450944 = go f0 a7
3 p0/0 end #0 p0 = ended drain - next - woke 0
wheel 0
1 c0/0 insert i0 #0 u6442450944 = at u6442450944
0 p0/0 scan u6442450944 = count 1
1 p0/0 pop = got i0 #0 u6442450944
4 p0/0 free = freed
5 p0/0 pop = empty
actor c0
actor p0
end
";

/// Stops before an arming, of the one that is pending, and after it, with codes -1, 1 and -1; then the query whether it is active.
pub const THE_CODES_OF_STOP: &str = r"callout 1
funcs 1
timer 0 mpsafe
client 0
stop 0
reset 0 =1 f0 a0
stop 0
stop 0
active 0
cpu 0
";

/// Its report.
pub const THE_CODES_OF_STOP_REPORT: &str = r"callout-report 1
callout 1
hz 1000
cpus 1
wheel 256
funcs 1
timer 0 mpsafe
func 0
client 0
stop 0
reset 0 =u4294967296 f0 a0
stop 0
stop 0
active 0
cpu 0
histories
timer 0
0 c0/0 stop = stopped -1 off -
1 c0/1 reset u4294967296 pr u0 f0 a0 cpu - = armed 0 #0 p0 off -
4 c0/2 stop = stopped 1 off p0
5 c0/3 stop = stopped -1 off -
6 c0/4 active = no
wheel 0
2 c0/1 insert i0 #0 u4294967296 = at u4294967296
3 c0/2 remove i0 = off
actor c0
actor p0
end
";
