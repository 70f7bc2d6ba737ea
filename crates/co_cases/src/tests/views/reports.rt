//! Reports, beside that of one firing among the examples. The first two are among those of worked_cases.

/// A stop while the function runs, which takes the function's own new arming away.
pub(super) const STOP_DURING_SERVICE: &str = r"callout-report 1
callout 1
hz 1000
cpus 1
wheel 256
funcs 1
timer 0 mpsafe
func 0
reset me +u4294967296 f0 a0
client 0
reset 0 =u4294967296 f0 a0
stop 0
cpu 0
tick u4294967296
turns c0*1
turns p0*3
turns c0*1
histories
timer 0
0 c0/0 reset u4294967296 pr u0 f0 a0 cpu - = armed 0 #0 p0 off -
2 p0/0 pick #0 p0 u4294967296 = go f0 a0
3 p0/1 reset u8589934592 pr u0 f0 a0 cpu - = armed 0 #1 p0 off -
3 c0/1 stop = stopped 0 off p0
5 p0/0 end #0 p0 = ended drain - next - woke 0
wheel 0
1 c0/0 insert i0 #0 u4294967296 = at u4294967296
0 p0/0 scan u4294967296 = count 1
1 p0/0 pop = got i0 #0 u4294967296
4 p0/1 insert i0 #1 u8589934592 = at u8589934592
2 c0/1 remove i0 = off
6 p0/0 free = freed
7 p0/0 pop = empty
actor c0
actor p0
end
";

/// A drain that waits for a service on another CPU.
pub(super) const DRAIN_WAITS: &str = r"callout-report 1
callout 1
hz 1000
cpus 2
wheel 256
funcs 1
lock 0 mtx
timer 0 mtx 0
func 0
client 0
lock 0
reset 0 =u4294967296 f0 a7 cpu 1
unlock
client 1
drain 0
cpu 0
cpu 1
tick u4294967296
turns c0*4
turns p1*3
turns c1*2
histories
timer 0
0 c0/1 reset u4294967296 pr u0 f0 a7 cpu p1 = armed 0 #0 p1 off -
2 p1/0 pick #0 p1 u4294967296 = hold
0 c1/0 drain 0 = wait #0 0 off -
3 p1/0 begin #0 p1 = go f0 a7
4 p1/0 end #0 p1 = ended drain - next - woke 1
1 c1/0 drain 0 = drained -1 off -
wheel 0
wheel 1
1 c0/1 insert i0 #0 u4294967296 = at u4294967296
0 p1/0 scan u4294967296 = count 1
1 p1/0 pop = got i0 #0 u4294967296
5 p1/0 free = freed
6 p1/0 pop = empty
actor c0
actor c1
actor p0
actor p1
end
";

/// Two clients that stop timers 0 and 1 crosswise: each timer has first the stop that is its actor's second. The first note is in
/// line 18.
pub(super) const NO_ORDER: &str = r"callout-report 1
callout 1
hz 1000
cpus 1
wheel 256
funcs 0
timer 0 mpsafe
timer 1 mpsafe
client 0
stop 0
stop 1
client 1
stop 1
stop 0
cpu 0
histories
timer 0
1 c1/1 stop = stopped -1 off -
0 c0/0 stop = stopped -1 off -
timer 1
1 c0/1 stop = stopped -1 off -
0 c1/0 stop = stopped -1 off -
wheel 0
actor c0
actor c1
actor p0
end
";
