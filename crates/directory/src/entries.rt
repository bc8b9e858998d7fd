// The entries of the directory, an entry on a line: the command, and the least and the greatest length of its data.
// What stands at a place is the definition's entry there: specs/Directory.antt.
use crate::Entry;

// How many entries there are.
pub const COUNT: usize = 150;

macro_rules! entry {
    ($number:literal, $least:literal, $greatest:literal) => {
        Entry {
            number: $number,
            least: $least,
            greatest: $greatest,
        }
    };
}

// Ascending by command. It is a static, since compiled code may copy a constant at each use.
pub(crate) static ENTRIES: [Entry; COUNT] = [
    entry!(0x0000, 1, 1), // GW_ERROR_NTF
    entry!(0x0001, 0, 0), // GW_REBOOT_REQ
    entry!(0x0002, 0, 0), // GW_REBOOT_CFM
    entry!(0x0003, 0, 0), // GW_SET_FACTORY_DEFAULT_REQ
    entry!(0x0004, 0, 0), // GW_SET_FACTORY_DEFAULT_CFM
    entry!(0x0008, 0, 0), // GW_GET_VERSION_REQ
    entry!(0x0009, 9, 9), // GW_GET_VERSION_CFM
    entry!(0x000A, 0, 0), // GW_GET_PROTOCOL_VERSION_REQ
    entry!(0x000B, 4, 4), // GW_GET_PROTOCOL_VERSION_CFM
    entry!(0x000C, 0, 0), // GW_GET_STATE_REQ
    entry!(0x000D, 6, 6), // GW_GET_STATE_CFM
    entry!(0x000E, 0, 0), // GW_LEAVE_LEARN_STATE_REQ
    entry!(0x000F, 1, 1), // GW_LEAVE_LEARN_STATE_CFM
    entry!(0x00E0, 0, 0), // GW_GET_NETWORK_SETUP_REQ
    entry!(0x00E1, 13, 13), // GW_GET_NETWORK_SETUP_CFM
    entry!(0x00E2, 13, 13), // GW_SET_NETWORK_SETUP_REQ
    entry!(0x00E3, 0, 0), // GW_SET_NETWORK_SETUP_CFM
    entry!(0x0100, 0, 0), // GW_CS_GET_SYSTEMTABLE_DATA_REQ
    entry!(0x0101, 0, 0), // GW_CS_GET_SYSTEMTABLE_DATA_CFM
    entry!(0x0102, 2, 112), // GW_CS_GET_SYSTEMTABLE_DATA_NTF
    entry!(0x0103, 1, 1), // GW_CS_DISCOVER_NODES_REQ
    entry!(0x0104, 0, 0), // GW_CS_DISCOVER_NODES_CFM
    entry!(0x0105, 131, 131), // GW_CS_DISCOVER_NODES_NTF
    entry!(0x0106, 26, 26), // GW_CS_REMOVE_NODES_REQ
    entry!(0x0107, 1, 1), // GW_CS_REMOVE_NODES_CFM
    entry!(0x0108, 0, 0), // GW_CS_VIRGIN_STATE_REQ
    entry!(0x0109, 0, 0), // GW_CS_VIRGIN_STATE_CFM
    entry!(0x010A, 1, 1), // GW_CS_CONTROLLER_COPY_REQ
    entry!(0x010B, 0, 0), // GW_CS_CONTROLLER_COPY_CFM
    entry!(0x010C, 2, 2), // GW_CS_CONTROLLER_COPY_NTF
    entry!(0x010D, 0, 0), // GW_CS_CONTROLLER_COPY_CANCEL_NTF
    entry!(0x010E, 0, 0), // GW_CS_RECEIVE_KEY_REQ
    entry!(0x010F, 0, 0), // GW_CS_RECEIVE_KEY_CFM
    entry!(0x0110, 53, 53), // GW_CS_RECEIVE_KEY_NTF
    entry!(0x0111, 3, 3), // GW_CS_PGC_JOB_NTF
    entry!(0x0112, 52, 52), // GW_CS_SYSTEM_TABLE_UPDATE_NTF
    entry!(0x0113, 0, 0), // GW_CS_GENERATE_NEW_KEY_REQ
    entry!(0x0114, 0, 0), // GW_CS_GENERATE_NEW_KEY_CFM
    entry!(0x0115, 53, 53), // GW_CS_GENERATE_NEW_KEY_NTF
    entry!(0x0116, 0, 0), // GW_CS_REPAIR_KEY_REQ
    entry!(0x0117, 0, 0), // GW_CS_REPAIR_KEY_CFM
    entry!(0x0118, 53, 53), // GW_CS_REPAIR_KEY_NTF
    entry!(0x0119, 26, 26), // GW_CS_ACTIVATE_CONFIGURATION_MODE_REQ
    entry!(0x011A, 79, 79), // GW_CS_ACTIVATE_CONFIGURATION_MODE_CFM
    entry!(0x0200, 1, 1), // GW_GET_NODE_INFORMATION_REQ
    entry!(0x0201, 2, 2), // GW_GET_NODE_INFORMATION_CFM
    entry!(0x0202, 0, 0), // GW_GET_ALL_NODES_INFORMATION_REQ
    entry!(0x0203, 2, 2), // GW_GET_ALL_NODES_INFORMATION_CFM
    entry!(0x0204, 124, 124), // GW_GET_ALL_NODES_INFORMATION_NTF
    entry!(0x0205, 0, 0), // GW_GET_ALL_NODES_INFORMATION_FINISHED_NTF
    entry!(0x0206, 2, 2), // GW_SET_NODE_VARIATION_REQ
    entry!(0x0207, 2, 2), // GW_SET_NODE_VARIATION_CFM
    entry!(0x0208, 65, 65), // GW_SET_NODE_NAME_REQ
    entry!(0x0209, 2, 2), // GW_SET_NODE_NAME_CFM
    entry!(0x020C, 69, 69), // GW_NODE_INFORMATION_CHANGED_NTF
    entry!(0x020D, 4, 4), // GW_SET_NODE_ORDER_AND_PLACEMENT_REQ
    entry!(0x020E, 2, 2), // GW_SET_NODE_ORDER_AND_PLACEMENT_CFM
    entry!(0x0210, 124, 124), // GW_GET_NODE_INFORMATION_NTF
    entry!(0x0211, 20, 20), // GW_NODE_STATE_POSITION_CHANGED_NTF
    entry!(0x0220, 1, 1), // GW_GET_GROUP_INFORMATION_REQ
    entry!(0x0221, 2, 2), // GW_GET_GROUP_INFORMATION_CFM
    entry!(0x0222, 99, 99), // GW_SET_GROUP_INFORMATION_REQ
    entry!(0x0223, 2, 2), // GW_SET_GROUP_INFORMATION_CFM
    entry!(0x0224, 2, 100), // GW_GROUP_INFORMATION_CHANGED_NTF
    entry!(0x0225, 1, 1), // GW_DELETE_GROUP_REQ
    entry!(0x0226, 2, 2), // GW_DELETE_GROUP_CFM
    entry!(0x0227, 96, 96), // GW_NEW_GROUP_REQ
    entry!(0x0228, 2, 2), // GW_NEW_GROUP_CFM
    entry!(0x0229, 2, 2), // GW_GET_ALL_GROUPS_INFORMATION_REQ
    entry!(0x022A, 2, 2), // GW_GET_ALL_GROUPS_INFORMATION_CFM
    entry!(0x022B, 99, 99), // GW_GET_ALL_GROUPS_INFORMATION_NTF
    entry!(0x022C, 0, 0), // GW_GET_ALL_GROUPS_INFORMATION_FINISHED_NTF
    entry!(0x022D, 1, 1), // GW_GROUP_DELETED_NTF
    entry!(0x0230, 99, 99), // GW_GET_GROUP_INFORMATION_NTF
    entry!(0x0240, 0, 0), // GW_HOUSE_STATUS_MONITOR_ENABLE_REQ
    entry!(0x0241, 0, 0), // GW_HOUSE_STATUS_MONITOR_ENABLE_CFM
    entry!(0x0242, 0, 0), // GW_HOUSE_STATUS_MONITOR_DISABLE_REQ
    entry!(0x0243, 0, 0), // GW_HOUSE_STATUS_MONITOR_DISABLE_CFM
    entry!(0x0300, 66, 66), // GW_COMMAND_SEND_REQ
    entry!(0x0301, 3, 3), // GW_COMMAND_SEND_CFM
    entry!(0x0302, 13, 13), // GW_COMMAND_RUN_STATUS_NTF
    entry!(0x0303, 6, 6), // GW_COMMAND_REMAINING_TIME_NTF
    entry!(0x0304, 2, 2), // GW_SESSION_FINISHED_NTF
    entry!(0x0305, 26, 26), // GW_STATUS_REQUEST_REQ
    entry!(0x0306, 3, 3), // GW_STATUS_REQUEST_CFM
    entry!(0x0307, 18, 59), // GW_STATUS_REQUEST_NTF
    entry!(0x0308, 27, 27), // GW_WINK_SEND_REQ
    entry!(0x0309, 3, 3), // GW_WINK_SEND_CFM
    entry!(0x030A, 2, 2), // GW_WINK_SEND_NTF
    entry!(0x0310, 31, 31), // GW_SET_LIMITATION_REQ
    entry!(0x0311, 3, 3), // GW_SET_LIMITATION_CFM
    entry!(0x0312, 25, 25), // GW_GET_LIMITATION_STATUS_REQ
    entry!(0x0313, 3, 3), // GW_GET_LIMITATION_STATUS_CFM
    entry!(0x0314, 10, 10), // GW_LIMITATION_STATUS_NTF
    entry!(0x0320, 31, 31), // GW_MODE_SEND_REQ
    entry!(0x0321, 3, 3), // GW_MODE_SEND_CFM
    entry!(0x0322, 0, 250), // GW_MODE_SEND_NTF
    entry!(0x0400, 0, 0), // GW_INITIALIZE_SCENE_REQ
    entry!(0x0401, 1, 1), // GW_INITIALIZE_SCENE_CFM
    entry!(0x0402, 26, 26), // GW_INITIALIZE_SCENE_NTF
    entry!(0x0403, 0, 0), // GW_INITIALIZE_SCENE_CANCEL_REQ
    entry!(0x0404, 1, 1), // GW_INITIALIZE_SCENE_CANCEL_CFM
    entry!(0x0405, 64, 64), // GW_RECORD_SCENE_REQ
    entry!(0x0406, 1, 1), // GW_RECORD_SCENE_CFM
    entry!(0x0407, 2, 2), // GW_RECORD_SCENE_NTF
    entry!(0x0408, 1, 1), // GW_DELETE_SCENE_REQ
    entry!(0x0409, 2, 2), // GW_DELETE_SCENE_CFM
    entry!(0x040A, 65, 65), // GW_RENAME_SCENE_REQ
    entry!(0x040B, 2, 2), // GW_RENAME_SCENE_CFM
    entry!(0x040C, 0, 0), // GW_GET_SCENE_LIST_REQ
    entry!(0x040D, 1, 1), // GW_GET_SCENE_LIST_CFM
    entry!(0x040E, 2, 197), // GW_GET_SCENE_LIST_NTF
    entry!(0x040F, 1, 1), // GW_GET_SCENE_INFOAMATION_REQ
    entry!(0x0410, 2, 2), // GW_GET_SCENE_INFOAMATION_CFM
    entry!(0x0411, 71, 247), // GW_GET_SCENE_INFOAMATION_NTF
    entry!(0x0412, 6, 6), // GW_ACTIVATE_SCENE_REQ
    entry!(0x0413, 3, 3), // GW_ACTIVATE_SCENE_CFM
    entry!(0x0415, 5, 5), // GW_STOP_SCENE_REQ
    entry!(0x0416, 3, 3), // GW_STOP_SCENE_CFM
    entry!(0x0419, 2, 2), // GW_SCENE_INFORMATION_CHANGED_NTF
    entry!(0x0447, 13, 13), // GW_ACTIVATE_PRODUCTGROUP_REQ
    entry!(0x0448, 3, 3), // GW_ACTIVATE_PRODUCTGROUP_CFM
    entry!(0x0449, 0, 250), // GW_ACTIVATE_PRODUCTGROUP_NTF
    entry!(0x0460, 0, 0), // GW_GET_CONTACT_INPUT_LINK_LIST_REQ
    entry!(0x0461, 161, 171), // GW_GET_CONTACT_INPUT_LINK_LIST_CFM
    entry!(0x0462, 17, 17), // GW_SET_CONTACT_INPUT_LINK_REQ
    entry!(0x0463, 2, 2), // GW_SET_CONTACT_INPUT_LINK_CFM
    entry!(0x0464, 1, 1), // GW_REMOVE_CONTACT_INPUT_LINK_REQ
    entry!(0x0465, 2, 2), // GW_REMOVE_CONTACT_INPUT_LINK_CFM
    entry!(0x0500, 0, 0), // GW_GET_ACTIVATION_LOG_HEADER_REQ
    entry!(0x0501, 4, 4), // GW_GET_ACTIVATION_LOG_HEADER_CFM
    entry!(0x0502, 0, 0), // GW_CLEAR_ACTIVATION_LOG_REQ
    entry!(0x0503, 0, 0), // GW_CLEAR_ACTIVATION_LOG_CFM
    entry!(0x0504, 2, 2), // GW_GET_ACTIVATION_LOG_LINE_REQ
    entry!(0x0505, 17, 17), // GW_GET_ACTIVATION_LOG_LINE_CFM
    entry!(0x0506, 0, 0), // GW_ACTIVATION_LOG_UPDATED_NTF
    entry!(0x0507, 4, 4), // GW_GET_MULTIPLE_ACTIVATION_LOG_LINES_REQ
    entry!(0x0508, 17, 17), // GW_GET_MULTIPLE_ACTIVATION_LOG_LINES_NTF
    entry!(0x0509, 3, 3), // GW_GET_MULTIPLE_ACTIVATION_LOG_LINES_CFM
    entry!(0x2000, 4, 4), // GW_SET_UTC_REQ
    entry!(0x2001, 0, 0), // GW_SET_UTC_CFM
    entry!(0x2002, 64, 64), // GW_RTC_SET_TIME_ZONE_REQ
    entry!(0x2003, 1, 1), // GW_RTC_SET_TIME_ZONE_CFM
    entry!(0x2004, 0, 0), // GW_GET_LOCAL_TIME_REQ
    entry!(0x2005, 15, 15), // GW_GET_LOCAL_TIME_CFM
    entry!(0x3000, 32, 32), // GW_PASSWORD_ENTER_REQ
    entry!(0x3001, 1, 1), // GW_PASSWORD_ENTER_CFM
    entry!(0x3002, 64, 64), // GW_PASSWORD_CHANGE_REQ
    entry!(0x3003, 1, 1), // GW_PASSWORD_CHANGE_CFM
    entry!(0x3004, 32, 32), // GW_PASSWORD_CHANGE_NTF
];
