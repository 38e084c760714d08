//! The table of link types.

/// Hands the table of link types (LINKTYPE of tcpdump.org), in the order of their numbers, to the
/// macro `$then`. A row has the number, its name there, the parser of the link header (`link`), and
/// the parser of the bytes before its VLAN tags (`vlan`).
macro_rules! links {
    ($then:ident $i:ident, $link_type:ident) => {
        $then! {
            $i, $link_type:
            0 NULL => loopback(), no_tags();
            1 ETHERNET => behind(12), tags_behind(12);
            9 PPP => ppp_link(), hdlc_front();
            50 PPP_HDLC => ppp_link(), hdlc_front();
            51 PPP_ETHER => carries(PPPOE), no_tags();
            101 RAW => raw_ip(), no_tags();
            108 LOOP => loopback(), no_tags();
            113 LINUX_SLL => behind(14), tags_behind(14);
            228 IPV4 => carries(IPV4), no_tags();
            229 IPV6 => carries(IPV6), no_tags();
            276 LINUX_SLL2 => sll2(), sll2_front();
        }
    };
}

pub(crate) use links;
